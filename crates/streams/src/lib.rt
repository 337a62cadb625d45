// Data and octets of any length, call after call: the line state to begin in, how data is cut into frames, and their control sequences.
#![tactic(auto)]

ghost use Rattle.std.specs.Prelude.{◌≡◌, ℕ, ◌+◌, ◌*◌, ◌/◌, ◌%◌, ◌≤◌, ◌<◌};
ghost use Rattle.standard.specs.Frame.{begun as begunWith, fresh, cold, is_control, width, call_bits};
ghost use Rattle.streams.specs.Cut.{CutInto};

use standard::{LineState, Record};

// The line state of an end that begins, with so many doubtful bits.
fn begun(doubtful: u8) -> LineState
    ensures { result ≡ begunWith doubtful }
{
    LineState {
        history: 0,
        sign: false,
        doubtful,
        place: 0,
        done: 0,
        sequence: [0; 12],
        lost: false,
    }
}

// The fresh line state.
pub fn fresh_state() -> LineState
    ensures { result ≡ fresh }
{
    begun(0)
}

// The line state of a receiver that begins cold.
pub fn cold_state() -> LineState
    ensures { result ≡ cold }
{
    begun(24)
}

// The data bits of frame i of those that begin at a frame place: D, and K in a control frame. It stays a call: LLVM's vectors of the loop of
// `cut_into` run past its early end.
// `drn ≤ 28` and `place < 64` are clauses, here and below: what is public may ask no more, and `Record` and `LineState` hold any number.
#[inline(never)]
pub fn width_at(r: Record, control: bool, place: u8, i: usize) -> usize
    requires { (r.drn ≤ 28) × (i ≤ 1024) }
    ensures { (result ≡ width r (is_control control ((place + i) % 64))) × (14 ≤ result) × (result ≤ 48) }
{
    if control & ((place as usize + i) % 64 == 0) {
        return constellation::k_of(r);
    }
    constellation::d_of(r)
}

// The data bits of so many frames, from a frame place on. Its callers hold a record and a line state, and no struct of the two would be kept.
pub fn bits_in(r: Record, control: bool, place: u8, frames: usize) -> usize
    requires { (r.drn ≤ 28) × (place < 64) × (frames ≤ 1024) }
    ensures { (result ≡ call_bits r control place frames) × (14 * frames ≤ result) × (result ≤ 48 * frames) }
{
    let mut bits = 0;
    for i in 0..frames {
        bits += width_at(r, control, place, i);
    }
    bits
}

// Data cut into frames: how many, and the bits that fill no frame, or the zero bits that fill the last one.
#[derive(Clone, Copy)]
pub struct Cut {
    pub frames: usize,
    pub left: usize,
    pub padding: usize,
}

// What is cut of bits too few for the next frame, of so many bits, after so many frames.
fn cut_rest(frames: usize, left: usize, next: usize, exact: bool) -> Cut
    requires { (frames < 1024) × (left < next) × (next ≤ 48) }
    ensures { (f : ℕ → ℕ) → f (frames + 1) ≡ f frames + next → CutInto f (f frames + left) exact result }
{
    if exact | (left == 0) {
        return Cut {
            frames,
            left,
            padding: 0,
        };
    }
    Cut {
        frames: frames + 1,
        left: 0,
        padding: next - left,
    }
}

// Cuts so many bits of data into frames, from a frame place on; whole frames alone, or a last one that is filled with zero bits.
// `exact` is a flag, as the definition `CutInto` takes it.
pub fn cut_into(r: Record, control: bool, place: u8, bits: usize, exact: bool) -> Cut
    requires { (r.drn ≤ 28) × (place < 64) × (bits ≤ call_bits r control place 1024) }
    ensures { CutInto (call_bits r control place) bits exact result }
{
    let mut left = bits;
    for frames in 0..1024 {
        let next = width_at(r, control, place, frames);
        if left < next {
            return cut_rest(frames, left, next, exact);
        }
        left -= next;
    }
    Cut {
        frames: 1024,
        left,
        padding: 0,
    }
}

// The frame with which the control sequence ends, of those that begin at a frame place with so many control frames of the sequence done.
pub fn ending(place: u8, done: u8) -> usize
    requires { (place < 64) × (done < 16) }
    ensures { ((place + result) % 64 ≡ 0) × (done + (result + (place + 63) % 64) / 64 ≡ 15) }
{
    (64 - place as usize) % 64 + 64 * (15 - done as usize)
}

// Control sequences one after the other: how many are whole, and how many control frames there are of the one behind them.
#[derive(Clone, Copy)]
pub struct Sequences {
    pub whole: u64,
    pub more: u64,
}

// The control sequences in so many frames, of which the first and every 64th after it are control frames.
pub fn sequences_in(frames: u64) -> Sequences
    ensures { (16 * result.whole + result.more ≡ (frames + 63) / 64) × (result.more < 16) }
{
    let control = frames.div_ceil(64);
    Sequences {
        whole: control / 16,
        more: control % 16,
    }
}
