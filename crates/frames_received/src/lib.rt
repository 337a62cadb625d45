// The data frames of a call received, one after the other.
#![tactic(auto)]

ghost use Rattle.std.specs.Prelude.{◌≡◌, cond, length, take, ◌*◌, ◌≤◌};
ghost use Rattle.standard.specs.Lists.{last_or};
ghost use Rattle.standard.specs.Bits.{bit_at, bytes_of, bytes_for, nth};
ghost use Rattle.standard.specs.Control.{judged};
ghost use Rattle.standard.specs.Frame.{call_bits, receive_frames, receive_marks, receive_after, receive_said};
ghost use Rattle.standard.specs.Calls.{over};
ghost use Rattle.standard.specs.declared.Said.TheVariants.{Nothing};
ghost use Rattle.frame.specs.Allowed.{Allowed};

use bits::Pouring;
use hearing::Receiver;
use receiving::receive_frame;
use standard::{Law, LineState, Record, Said};

// What is said of the control sequence that ends with a frame, and else what was said before.
// `ends` is a flag, by cases of which the loop's proof goes.
fn say(ends: bool, before: Said, lost: bool, sequence: &[u8; 12]) -> Said
    ensures { result ≡ cond ends (judged lost (bit_at sequence.now)) before }
{
    if ends {
        return control::judge(lost, sequence);
    }
    before
}

// The state that a call leaves, and what it says of the control sequence that ends in it.
#[derive(Clone, Copy)]
pub struct FramesHeard {
    pub state: LineState,
    pub said: Said,
}

// Receives so many frames: frame n is the six octets from place 6 * n on, and gives mark n and the data bits that follow those of the frame
// before it.
pub fn receive_frames(
    r: Record,
    law: Law,
    frames: usize,
    control: bool,
    state: LineState,
    octets: &[u8],
    bytes: &mut [u8],
    marks: &mut [u8],
) -> FramesHeard
    requires { Allowed r state frames × (6 * frames ≤ length octets.now)
        × (bytes_for (call_bits r control state.place frames) ≤ length bytes.old) × (frames ≤ length marks.old) }
    ensures { let os = take (6 * frames) octets.now in
        (result.state ≡ receive_after r law control frames state os)
        × (result.said ≡ last_or Nothing (receive_said r law control frames state os))
        × (bytes.new
        ≡ over (bytes_of (bytes_for (call_bits r control state.place frames)) (nth (receive_frames r law control frames state os)))
        bytes.old)
        × (marks.new ≡ over (receive_marks r law frames os) marks.old) }
{
    let mut points = [[0u8; 128]; 6];
    let mut labels = [[0u8; 128]; 6];
    let mapping = mapping::draw_up(r, &mut points, &mut labels);
    let receiver = Receiver {
        law,
        mapping,
        labels: &labels,
    };
    let mut sequence = state.sequence;
    let mut line = frame::carry(state);
    let mut said = Said::Nothing;
    let mut pouring = Pouring {
        to: 0,
        count: 0,
        held: 0,
    };
    for n in 0..frames {
        let at = 6 * n;
        let end = at + 6;
        let is_control = channel::is_control(control, line.place);
        let ends = is_control & (line.done == 15);
        let six = &octets[at..end];
        let got = receive_frame(&receiver, control, line, &mut sequence, six);
        pouring = bits::pour(
            bytes,
            pouring,
            channel::width_of(mapping, is_control),
            got.bits,
        );
        marks[n] = got.mark;
        line = got.line;
        said = say(ends, said, line.lost, &sequence);
    }
    bits::pour_out(bytes, pouring);
    FramesHeard {
        state: frame::state_of(line, sequence),
        said,
    }
}
