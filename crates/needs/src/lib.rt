// What a call with a line state is refused for, and what a call of the sender or of the receiver needs of its buffers.
#![tactic(auto)]

ghost use Rattle.std.specs.Prelude.{◌≡◌, cond, ◌+◌, ◌/◌, ◌%◌, ◌<◌, ◌≤◌, ◌*◌, ◌++◌, IfOk};
ghost use Rattle.standard.specs.First.{first};
ghost use Rattle.standard.specs.Bits.{bytes_for};
ghost use Rattle.standard.specs.Frame.{call_bits};
ghost use Rattle.standard.specs.Refusals.{outcome_answer, record_tests, line_tests, buffer_tests};

use standard::{LineState, Record, Refusal};
use state_faults::state_fault;

// How many of so many frames are control frames, from a frame place on.
fn control_frames(control: bool, place: u8, frames: usize) -> usize
    requires { frames ≤ 1024 }
    ensures { (result ≡ cond control ((frames + (place + 63) % 64) / 64) 0) × (result ≤ 16) }
{
    if control {
        return (frames + (place as usize + 63) % 64) / 64;
    }
    0
}

// The bytes that the data bits of so many frames need, from a frame place on: D bits a frame, and 6 fewer for each control frame.
fn data_bytes(r: Record, control: bool, place: u8, frames: usize) -> usize
    requires { (r.drn ≤ 28) × (place < 64) × (frames ≤ 1024) }
    ensures { result ≡ bytes_for (call_bits r control place frames) }
{
    let fewer = 6 * control_frames(control, place, frames);
    (frames * constellation::d_of(r) - fewer).div_ceil(8)
}

// Refusals 13, 14, 18, 19 and 15.
fn line_fault(r: Record, state: LineState, frames: usize) -> Result<(), Refusal>
    ensures { outcome_answer result ≡ first (line_tests r state frames) }
{
    if (1 <= frames) & (r.drn == 0) {
        return Err(Refusal::FramesAtCleardown);
    }
    state_fault(state)?;
    if 1024 < frames {
        return Err(Refusal::TooManyFrames);
    }
    Ok(())
}

// Refusals 4, 9, 10, 25, 11 to 14, 18, 19 and 15.
fn call_fault(r: Record, state: LineState, frames: usize) -> Result<(), Refusal>
    ensures { outcome_answer result ≡ first (record_tests r ++ line_tests r state frames) }
{
    faults::record_fault(r)?;
    line_fault(r, state, frames)
}

// The bytes of data and the octets that a call needs.
#[derive(Clone, Copy)]
pub struct Needed {
    pub bytes: usize,
    pub octets: usize,
}

// What a call of so many frames needs, or refusals 4, 9, 10, 25, 11 to 14, 18, 19 and 15, before its buffers are looked at.
// The record, the state and the frames are handed on as the entries have them: a struct would be made for each call and taken apart.
pub fn needed_by(
    r: Record,
    state: LineState,
    control: bool,
    frames: usize,
) -> Result<Needed, Refusal>
    ensures refusal { outcome_answer result ≡ first (record_tests r ++ line_tests r state frames) }
    ensures bytes { IfOk result (λ needed. needed.bytes ≡ bytes_for (call_bits r control state.place frames)) }
    ensures octets { IfOk result (λ needed. needed.octets ≡ 6 * frames) }
{
    call_fault(r, state, frames)?;
    Ok(Needed {
        bytes: data_bytes(r, control, state.place, frames),
        octets: 6 * frames,
    })
}

// Refusals 16 and 17: whether the buffer to be read, and one to be written, is shorter than needed.
// Two flags, as the definition `buffer_tests` has them.
pub fn buffer_fault(input: bool, output: bool) -> Result<(), Refusal>
    ensures { outcome_answer result ≡ first (buffer_tests input output) }
{
    if input {
        return Err(Refusal::InputTooShort);
    }
    if output {
        return Err(Refusal::OutputTooShort);
    }
    Ok(())
}
