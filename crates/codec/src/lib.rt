// The frame sender and the frame receiver.
#![tactic(auto)]

ghost use Rattle.std.specs.Prelude.{◌≡◌, ◌||◌, ◌*◌, ltb, IfOk};
ghost use Rattle.standard.specs.First.{first};
ghost use Rattle.standard.specs.Bits.{bytes_for};
ghost use Rattle.standard.specs.Frame.{call_bits};
ghost use Rattle.standard.specs.Refusals.{outcome_answer, frame_tests};
ghost use Rattle.standard.specs.Calls.{send_call, send_refusal, send_left, send_octets, receive_call, receive_refusal, receive_left};
ghost use Rattle.standard.specs.Calls.{receive_bytes, receive_marked, receive_says};

use frames_received::receive_frames;
use frames_sent::send_frames;
use standard::{Law, LineState, Record, Refusal, Said};

// The first refusal that applies to a call of the sender whose buffers have so many bytes and octets.
fn send_fault(
    r: Record,
    frames: usize,
    control: bool,
    state: LineState,
    bytes: usize,
    octets: usize,
) -> Result<(), Refusal>
    ensures { outcome_answer result ≡ first (frame_tests r state frames (ltb bytes (bytes_for (call_bits r control state.place frames)))
        (ltb octets (6 * frames))) }
{
    let needed = needs::needed_by(r, state, control, frames)?;
    needs::buffer_fault(bytes < needed.bytes, octets < needed.octets)
}

// The entry: turns the data bits of so many frames into 6 * frames octets and leaves the line state after them. With the control channel on,
// `word` has bits 16, 17 and 24 to 77 of a sequence that starts in the call. Refusals 4, 9, 10, 25, 11 to 14, 18, 19 and 15 to 17, the first
// that applies.
// `control` beside `word` and no Option, and each parameter by itself: v91_send and v91_receive hand them in so.
pub fn send(
    r: Record,
    law: Law,
    frames: usize,
    control: bool,
    word: u64,
    state: &mut LineState,
    bytes: &[u8],
    octets: &mut [u8],
) -> Result<(), Refusal>
    ensures refusal { outcome_answer result ≡ send_refusal state.old (send_call r law frames control word bytes.now octets.old) }
    ensures left { state.new ≡ send_left state.old (send_call r law frames control word bytes.now octets.old) }
    ensures octets { octets.new ≡ send_octets state.old (send_call r law frames control word bytes.now octets.old) }
{
    send_fault(r, frames, control, *state, bytes.len(), octets.len())?;
    *state = send_frames(r, law, frames, control, word, *state, bytes, octets);
    Ok(())
}

// The first refusal that applies to a call of the receiver whose buffers have so many octets, bytes and marks.
pub fn receive_fault(
    r: Record,
    frames: usize,
    control: bool,
    state: LineState,
    octets: usize,
    bytes: usize,
    marks: usize,
) -> Result<(), Refusal>
    ensures { outcome_answer result ≡ first (frame_tests r state frames (ltb octets (6 * frames))
        (ltb bytes (bytes_for (call_bits r control state.place frames)) || ltb marks frames)) }
{
    let needed = needs::needed_by(r, state, control, frames)?;
    needs::buffer_fault(
        octets < needed.octets,
        (bytes < needed.bytes) | (marks < frames),
    )
}

// The entry: turns 6 * frames octets into the data bits of so many frames and a mark for each, leaves the line state after them, and says
// what became of the control sequence that ends in the call. Refusals 4, 9, 10, 25, 11 to 14, 18, 19 and 15 to 17, the first that applies.
pub fn receive(
    r: Record,
    law: Law,
    frames: usize,
    control: bool,
    state: &mut LineState,
    octets: &[u8],
    bytes: &mut [u8],
    marks: &mut [u8],
) -> Result<Said, Refusal>
    ensures refusal { outcome_answer result ≡ receive_refusal state.old (receive_call r law frames control octets.now bytes.old marks.old) }
    ensures said { IfOk result (λ said. said ≡ receive_says state.old (receive_call r law frames control octets.now bytes.old marks.old)) }
    ensures left { state.new ≡ receive_left state.old (receive_call r law frames control octets.now bytes.old marks.old) }
    ensures bytes { bytes.new ≡ receive_bytes state.old (receive_call r law frames control octets.now bytes.old marks.old) }
    ensures marks { marks.new ≡ receive_marked state.old (receive_call r law frames control octets.now bytes.old marks.old) }
{
    receive_fault(
        r,
        frames,
        control,
        *state,
        octets.len(),
        bytes.len(),
        marks.len(),
    )?;
    let heard = receive_frames(r, law, frames, control, *state, octets, bytes, marks);
    *state = heard.state;
    Ok(heard.said)
}
