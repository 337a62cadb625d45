// What is told of the frames that come: runs of marked frames, and control sequences.
use console::{Ends, Meter};
use marks::Report;
use standard::Said;
use std::num::{wrapping_add_u64, wrapping_sub_u64};
use unaligned::put_digits;
use words::Text;

// What is known and told of the frames so far: what their marks come to, how many runs of marked frames were told and how many were not,
// and how far the stream is.
#[derive(Clone, Copy)]
pub(crate) struct Told {
    pub(crate) report: Report,
    told: u64,
    pub(crate) untold: u64,
    pub(crate) meter: Meter,
}

// Says the run of marked frames that ends with the frames so far; `after` tells whether a good frame follows.
fn say_run(e: Ends<'_>, p: Report, after: bool) {
    let mut room = [0; 256];
    let mut text = Text::new(&mut room);
    let last = wrapping_sub_u64(p.frames, 1);
    if p.first == last {
        text.add_values(b"v91: frame #: ", &[last]);
    } else {
        text.add_values(b"v91: frames # to #: ", &[p.first, last]);
    }
    match p.mark {
        7 => text.add_values(b"the number R is 2^K or more", &[]),
        _ => text.add_values(
            b"interval # outside its mask",
            &[wrapping_sub_u64(p.mark as u64, 1)],
        ),
    }
    if after {
        text.add_values(b"; the 24 bits after that are doubtful", &[]);
    }
    text.add_values(b"\n", &[]);
    e.tell_text(text.as_slice());
}

// What is said of a bit that asks for something.
// `description` has a line like this one too: a crate below both would name it and say no more.
fn yes_or_no(asked: bool) -> &'static [u8] {
    if asked { b"yes" } else { b"no" }
}

// Says the control sequence heard, which ends with this frame.
fn say_heard(e: Ends<'_>, frame: u64, word: u64) {
    let mut digits = [0u8; 54];
    put_digits(word, &mut digits);
    let mut room = [0; 256];
    let mut text = Text::new(&mut room);
    text.add_values(b"v91: frame #: control sequence heard: ", &[frame]);
    text.add_name(b"cleardown @, ", yes_or_no(word % 2 == 1));
    text.add_name(b"retrain @, ", yes_or_no(word / 2 % 2 == 1));
    text.add_name(b"data @\n", &digits);
    e.tell_text(text.as_slice());
}

// Says what the receiver says of the control sequence that ends with this frame.
fn say_sequence(e: Ends<'_>, frame: u64, said: Said) {
    match said {
        Said::Nothing => {}
        Said::Sequence(word) => say_heard(e, frame, word),
        Said::FrameLost => {
            e.tell(
                b"frame #: control sequence lost, a frame of it is marked",
                &[frame],
            );
        }
        Said::PatternWrong => {
            e.tell(b"frame #: control sequence wrong, its pattern", &[frame]);
        }
        Said::CrcWrong => e.tell(b"frame #: control sequence wrong, its CRC", &[frame]),
    }
}

impl Told {
    // Before the first frame.
    pub(crate) fn begun(rt: HostRuntime) -> Told {
        Told {
            report: Report::default(),
            told: 0,
            untold: 0,
            meter: Meter::begun(rt),
        }
    }

    // Tells the run of marked frames that a frame with another mark ends; after twenty runs they are only counted.
    pub(crate) fn end_run(&mut self, e: Ends<'_>, mark: u8, after: bool) {
        if (self.report.mark == 0) | (self.report.mark == mark) {
            return;
        }
        if self.told < 20 {
            self.meter.close(e);
            say_run(e, self.report, after);
            self.told += 1;
        } else {
            self.untold = wrapping_add_u64(self.untold, 1);
        }
    }

    // Notes the mark of a frame of so many bits, before which so many coming ones are doubtful.
    pub(crate) fn note(&mut self, e: Ends<'_>, width: usize, coming: u8, mark: u8) {
        self.end_run(e, mark, mark == 0);
        self.report.note(width as u64, coming, mark);
    }

    // Tells what the receiver says of the control sequence that ends with the last of the frames so far, where it says something.
    pub(crate) fn end_sequence(&mut self, e: Ends<'_>, said: Said) {
        if !matches!(said, Said::Nothing) {
            self.meter.close(e);
            say_sequence(e, wrapping_sub_u64(self.report.frames, 1), said);
        }
    }
}
