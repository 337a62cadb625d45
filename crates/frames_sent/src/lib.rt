// The data frames of a call sent, one after the other.
#![tactic(auto)]

ghost use Rattle.std.specs.Prelude.{◌≡◌, length, ◌*◌, ◌≤◌};
ghost use Rattle.standard.specs.Bits.{bits_in};
ghost use Rattle.standard.specs.Frame.{call_bits, send_frames, send_after};
ghost use Rattle.standard.specs.Calls.{over};
ghost use Rattle.frame.specs.Allowed.{Allowed};

use coding::modulus::reciprocals_of;
use sending::Sender;
use standard::{Law, LineState, Record};

// Sends so many frames: each takes the data bits that follow those of the frame before it, and frame n writes the six octets from place
// 6 * n on. `word` is for a control sequence that starts in the call.
pub fn send_frames(
    r: Record,
    law: Law,
    frames: usize,
    control: bool,
    word: u64,
    state: LineState,
    bytes: &[u8],
    octets: &mut [u8],
) -> LineState
    requires { Allowed r state frames × (6 * frames ≤ length octets.old) }
    ensures { let ds = bits_in (call_bits r control state.place frames) bytes.now in
        (result ≡ send_after r control word frames state ds)
        × (octets.new ≡ over (send_frames r law control word frames state ds) octets.old) }
{
    let mut points = [[0u8; 128]; 6];
    let mut labels = [[0u8; 128]; 6];
    let mapping = mapping::draw_up(r, &mut points, &mut labels);
    let sender = Sender {
        law,
        mapping,
        inverses: reciprocals_of(mapping.sizes),
        points: &points,
    };
    let mut sequence = state.sequence;
    let mut line = frame::carry(state);
    let mut used = 0;
    for n in 0..frames {
        let width = channel::width_of(mapping, channel::is_control(control, line.place));
        let bits = bits::field_at(bytes, used, width);
        let at = 6 * n;
        let end = at + 6;
        line = sending::send_frame(
            &sender,
            control,
            word,
            line,
            &mut sequence,
            bits,
            &mut octets[at..end],
        );
        used += width;
    }
    frame::state_of(line, sequence)
}
