// How far a stream is, and the line that shows it.
ghost use Rattle.std.specs.Prelude.{◌≡◌, ◌+◌, ◌%◌, ◌^◌, false};

use crate::Ends;
use std::num::wrapping_add_u64;
use std::time::Clock;
use words::Text;

// How many bytes were read so far, the second in which that was last shown, and whether the line that shows it is still open.
#[derive(Clone, Copy)]
pub struct Meter {
    pub bytes: u64,
    pub second: i64,
    pub open: bool,
}

// The time in seconds; 0 where the clock cannot be read.
fn now_in_seconds(rt: HostRuntime) -> i64 {
    rt.since_1970()
        .map_or(0, |time| time.as_secs().cast_signed())
}

impl Meter {
    // A meter that begins.
    pub fn begun(rt: HostRuntime) -> Meter
        ensures { (result.bytes ≡ 0) × (result.open ≡ false) }
    {
        Meter {
            bytes: 0,
            second: now_in_seconds(rt),
            open: false,
        }
    }

    // Ends the line that shows how far a stream is, where it is open, so that another can be said.
    pub fn close(&mut self, e: Ends<'_>)
        ensures { (self.new.bytes ≡ self.old.bytes) × (self.new.second ≡ self.old.second) × (self.new.open ≡ false) }
    {
        if self.open {
            e.tell_text(b"\n");
        }
        self.open = false;
    }

    // So many bytes and frames more; shows how far the stream is, once a second, where that is asked for.
    pub fn advance(&mut self, e: Ends<'_>, count: usize, frames: u64)
        ensures { self.new.bytes ≡ (self.old.bytes + count) % 2 ^ 64 }
    {
        self.bytes = wrapping_add_u64(self.bytes, count as u64);
        let second = now_in_seconds(e.rt);
        if !e.shows | (second == self.second) {
            return;
        }
        let mut room = [0; 128];
        let mut text = Text::new(&mut room);
        text.add_values(
            b"\rv91: #.# MB read, # frame~",
            &[self.bytes / 1_000_000, self.bytes / 100_000 % 10, frames],
        );
        e.tell_text(text.as_slice());
        self.second = second;
        self.open = true;
    }
}
