// One data frame received: six octets as D = K + 6 data bits, K in a control frame, held as a number with bit 0 first in time.
// K, D, the sizes and the tables are those that a call draws up of its record.
#![tactic(auto)]

ghost use Rattle.std.specs.Prelude.{◌≡◌, cond, length};
ghost use Rattle.standard.specs.Frame.{six_in};
ghost use Rattle.standard.specs.declared.Record.{Record};
ghost use Rattle.receiving.specs.Parts.{Receivable, ReceivedAs};

use bits::bit_of;
use channel::{data_of, is_control, keep, lost_after, next_done, next_place, width_of};
use coding::scrambler::descramble_past;
use coding::signs::signs_in;
use frame::{Carried, doubtful_after};
use hearing::{Receiver, hear};

// A frame received: its mark, the state left but for the sequence's bits, and its data bits.
// The mark is a number, as in `Heard`: it goes out as a byte, and the bits of a marked frame are bits too.
#[derive(Clone, Copy)]
pub struct FrameReceived {
    pub mark: u8,
    pub line: Carried,
    pub bits: u64,
}

// The data bits of a frame where it is good, zeros where it is marked.
fn if_good(good: bool, bits: u64) -> u64
    ensures { result ≡ cond good bits 0 }
{
    if good {
        return bits;
    }
    0
}

// Receives six octets, a slice of the line's, which as an array would be an Option: the mark, the state left, and the frame's data bits. The
// channel is on or off.
pub fn receive_frame(
    receiver: &Receiver,
    on: bool,
    line: Carried,
    sequence: &mut [u8; 12],
    octets: &[u8],
) -> FrameReceived
    requires { ((r : Record) × Receivable r receiver.now.mapping receiver.now.labels.now line) × (length octets.now ≡ 6) }
    ensures { (r : Record) → Receivable r receiver.now.mapping receiver.now.labels.now line
        → ReceivedAs r receiver.now.law (six_in on octets.now) line sequence.old result sequence.new }
{
    let control = is_control(on, line.place);
    let width = width_of(receiver.mapping, control);
    let signs = signs_in(octets);
    let heard = hear(receiver, line.sign, signs, octets);
    let good = heard.mark == 0;
    let plain = descramble_past(line.past, data_of(control, heard.bits), width);
    keep(control, line.done, heard.bits % 64, sequence);
    let left = Carried {
        past: plain.past,
        sign: bit_of(signs, 5),
        doubtful: doubtful_after(width, good, line.doubtful),
        place: next_place(on, line.place),
        done: next_done(control, line.done),
        lost: lost_after(control, line.done == 0, good, line.lost),
    };
    FrameReceived {
        mark: heard.mark,
        line: left,
        bits: if_good(good, plain.bits),
    }
}
