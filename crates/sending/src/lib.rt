// One data frame sent: D = K + 6 data bits, K in a control frame, held as a number with bit 0 first in time, as six octets.
// K, D, the sizes and the tables are those that a call draws up of its record.
#![tactic(auto)]

ghost use Rattle.std.specs.Prelude.{◌≡◌, ℕ, ◌<◌, length, get_or};
ghost use Rattle.standard.specs.Lists.{list_from};
ghost use Rattle.standard.specs.declared.Record.{Record};
ghost use Rattle.sending.specs.Parts.{outgoing, Sendable, SentAs, octet_in};

use bits::bit_of;
use channel::{bits_to_send, is_control, joined_bits, next_done, next_place, width_of};
use coding::modulus::labels_of;
use coding::scrambler::scramble_past;
use coding::signs::signs_of;
use frame::Carried;
use mapping::Mapping;
use pcm::octet_of;
use standard::Law;

// Writes the six octets of six labels and six signs; bit i of `signs` is the sign in interval i.
fn write_octets(law: Law, points: &[[u8; 128]; 6], labels: [u64; 6], signs: u64, octets: &mut [u8])
    requires { ((i : ℕ) → i < 6 → get_or labels i 0 < 128) × (length octets.old ≡ 6) }
    ensures { octets.new ≡ list_from (octet_in law points.now labels signs) 0 6 }
{
    for i in 0..6 {
        let label = labels[i] as usize;
        let u = points[i][label];
        octets[i] = octet_of(law, bit_of(signs, i), u);
    }
}

// What the frames of a call are sent by: the law, K, D and the sizes, the sizes' reciprocals, and for each interval the Ucodes of its mask in
// label order.
#[derive(Clone, Copy)]
pub struct Sender<'a> {
    pub law: Law,
    pub mapping: Mapping,
    pub inverses: [u64; 6],
    pub points: &'a [[u8; 128]; 6],
}

// Sends a frame's data bits, the lowest of `bits`, as six octets, and answers the state left. The channel is on or off, and `word` is for a
// sequence that starts with the frame. The octets are a slice of the call's: as an array, a part of it would be an Option.
pub fn send_frame(
    sender: &Sender,
    on: bool,
    word: u64,
    line: Carried,
    sequence: &mut [u8; 12],
    bits: u64,
    octets: &mut [u8],
) -> Carried
    requires { ((r : Record) × Sendable r sender.now.mapping sender.now.inverses sender.now.points.now line) × (length octets.old ≡ 6) }
    ensures { (r : Record) → Sendable r sender.now.mapping sender.now.inverses sender.now.points.now line
        → SentAs r sender.now.law (outgoing r on word line bits) line sequence.old result sequence.new octets.new }
{
    let control = is_control(on, line.place);
    let starts = control & (line.done == 0);
    let sent = scramble_past(line.past, bits, width_of(sender.mapping, control));
    let six = bits_to_send(control, starts, word, line.done, sequence);
    let together = joined_bits(six, sent.bits);
    let signs = signs_of(line.sign, together);
    let labels = labels_of(sender.mapping.sizes, sender.inverses, together >> 6);
    write_octets(sender.law, sender.points, labels, signs, octets);
    Carried {
        past: sent.past,
        sign: bit_of(signs, 5),
        doubtful: line.doubtful,
        place: next_place(on, line.place),
        done: next_done(control, line.done),
        lost: line.lost & !starts,
    }
}
