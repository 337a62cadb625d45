// Frames in the C interface: what v91_send and v91_receive do.
#![tactic(auto)]

ghost use Rattle.std.specs.Prelude.{◌≡◌};
ghost use Rattle.frames_c.specs.Interface.{v91_send, v91_receive};

use c_calls::{INPUT_TOO_SHORT, end_call, end_heard, law_of, lent_short, unheard};
use forms::HEARD_BYTES;

// Sends frames of data bits as octets, from the line state and to the one left. `sequence` is for a control sequence that starts in the
// call.
pub fn send(
    rec: &[u8],
    a_law: bool,
    frames: usize,
    control: bool,
    sequence: u64,
    bits: &[u8],
    octets: &mut [u8],
    state: &mut [u8],
) -> u32
    ensures { v91_send rec.now a_law frames control sequence bits.now octets.old
        state.old
        ≡ record { answer = result; octets = octets.new; state = state.new } }
{
    if lent_short(rec.len(), state.len()) {
        return INPUT_TOO_SHORT;
    }
    let r = forms::record_from(rec);
    let mut line = states::state_from(state);
    let sent = codec::send(
        r,
        law_of(a_law),
        frames,
        control,
        sequence,
        &mut line,
        bits,
        octets,
    );
    end_call(sent, line, frames, state)
}

// Receives octets as data bits and a mark for each frame, from the line state and to the one left, and says what became of the control
// sequence that ends in the call.
pub fn receive(
    rec: &[u8],
    a_law: bool,
    frames: usize,
    control: bool,
    octets: &[u8],
    bits: &mut [u8],
    marks: &mut [u8],
    heard: &mut [u8],
    state: &mut [u8],
) -> u32
    ensures { v91_receive rec.now a_law frames control octets.now bits.old marks.old
        heard.old state.old
        ≡ record {
          answer = result;
          bits = bits.new;
          marks = marks.new;
          heard = heard.new;
          state = state.new;
        } }
{
    if lent_short(rec.len(), state.len()) {
        return INPUT_TOO_SHORT;
    }
    let r = forms::record_from(rec);
    let mut line = states::state_from(state);
    if heard.len() < HEARD_BYTES {
        return unheard(codec::receive_fault(
            r,
            frames,
            control,
            line,
            octets.len(),
            bits.len(),
            marks.len(),
        ));
    }
    let said = codec::receive(
        r,
        law_of(a_law),
        frames,
        control,
        &mut line,
        octets,
        bits,
        marks,
    );
    end_heard(said, heard);
    end_call(said, line, frames, state)
}
