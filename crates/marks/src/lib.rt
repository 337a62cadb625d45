// What the marks of frames come to.
#![tactic(auto)]

ghost use Rattle.std.specs.Prelude.{◌≡◌, min, if◌then◌else◌, nat_eq};
ghost use Rattle.standard.specs.Frame.{width};
ghost use Rattle.marks.specs.Marks.{noted};

use std::num::wrapping_add_u64;

// What the marks of the frames so far come to: how many frames there are and how many are marked, the mark of the last one and the first of
// the frames up to it that have that mark, and how many bits of good frames are doubtful.
// A mark is a number, 0 for a good frame, as the mark buffer has it; the definition `noted` compares it with the one before.
#[derive(Clone, Copy, Default)]
pub struct Report {
    pub frames: u64,
    pub marked: u64,
    pub mark: u8,
    pub first: u64,
    pub doubtful: u64,
}

// How many bits of a frame of `width` bits are doubtful, where it is good and `coming` bits are doubtful before it.
fn doubtful_in(width: u64, coming: u8, mark: u8) -> u64
    ensures { result ≡ (if nat_eq mark 0 then min width coming else 0) }
{
    if mark != 0 {
        return 0;
    }
    width.min(coming as u64)
}

impl Report {
    // The first frame of the run that the next frame is in.
    fn run_start(&self, mark: u8) -> u64
        ensures { result ≡ (if nat_eq mark self.now.mark then self.now.first else self.now.frames) }
    {
        if mark == self.mark {
            return self.first;
        }
        self.frames
    }

    // One frame more, of `width` data bits, before which `coming` bits are doubtful.
    #[tactic(auto, unfolding(crate::specs::Marks::noted))]
    pub fn note(&mut self, width: u64, coming: u8, mark: u8)
        ensures { self.new ≡ noted width coming self.old mark }
    {
        self.first = self.run_start(mark);
        self.mark = mark;
        self.frames = wrapping_add_u64(self.frames, 1);
        self.marked = wrapping_add_u64(self.marked, (mark != 0) as u64);
        self.doubtful = wrapping_add_u64(self.doubtful, doubtful_in(width, coming, mark));
    }
}
