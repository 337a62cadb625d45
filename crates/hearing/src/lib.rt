// Six octets from the line, without a line state: their labels, their number, the mark, and a frame's D bits on the line. K, the sizes and
// the labels by Ucode are those that a call draws up of its record.
#![tactic(auto)]

ghost use Rattle.std.specs.Prelude.{◌≡◌, ◌≢◌, ℕ, ◌≤◌, ◌<◌, length, get_or, slice_index, EachIndex, MatchOption};
ghost use Rattle.standard.specs.Lists.{list_from};
ghost use Rattle.standard.specs.Bits.{number_of};
ghost use Rattle.standard.specs.Modulus.{number as number_in};
ghost use Rattle.standard.specs.Frame.{sign_at, mark as mark_of, heard_bits};
ghost use Rattle.standard.specs.declared.Record.{Record};
ghost use Rattle.hearing.specs.Legible.{Legible, label_in};

use coding::signs::sign_bits_of;
use mapping::Mapping;
use pcm::ucode_of;
use standard::Law;

// The six labels of six octets; 255 for an octet outside its mask.
// 255 is none as in the tables by Ucode, whose definition `label_or_none` has it.
fn labels_in(law: Law, labels: &[[u8; 128]; 6], octets: &[u8]) -> [u8; 6]
    requires { length octets.now ≡ 6 }
    ensures { result ≡ list_from (label_in law labels.now octets.now) 0 6 }
{
    let mut found = [0u8; 6];
    for (i, label) in found.iter_mut().enumerate() {
        let u = ucode_of(law, octets[i]) as usize;
        *label = labels[i][u];
    }
    found
}

// The first interval that has no label.
fn first_outside(found: [u8; 6]) -> Option<usize>
    ensures { MatchOption result (EachIndex found (λ k. slice_index found k ≢ 255))
        (λ i. (i < 6) × (slice_index found i ≡ 255) × ((k : ℕ) → k < i → slice_index found k ≢ 255)) }
{
    found.iter().position(|label| *label == 255)
}

// The number R of six labels.
fn number_of(sizes: [u64; 6], found: [u8; 6]) -> u64
    requires { (i : ℕ) → get_or sizes i 0 ≤ 128 }
    ensures { result ≡ number_in sizes found }
{
    let mut number: u64 = 0;
    for i in (0..6).rev() {
        number = sizes[i] * number + u64::from(found[i]);
    }
    number
}

// What the frames of a call are heard by: the law, K, D and the sizes, and for each interval the label of each Ucode or none.
#[derive(Clone, Copy)]
pub struct Receiver<'a> {
    pub law: Law,
    pub mapping: Mapping,
    pub labels: &'a [[u8; 128]; 6],
}

// What six octets give: the mark, and the D bits on the line, zeros where the frame is marked. A mark stays a number, 0 for a good frame,
// since it goes out as a byte and a marked frame's zeros are bits too.
#[derive(Clone, Copy)]
pub struct Heard {
    pub mark: u8,
    pub bits: u64,
}

// The mark of six octets, and their D bits on the line; `last` is the sign before them, and `signs` are theirs. The octets are a slice of
// the line's: as an array, a part of it would be an Option.
pub fn hear(receiver: &Receiver, last: bool, signs: u64, octets: &[u8]) -> Heard
    requires { ((r : Record) × Legible r receiver.now.mapping receiver.now.labels.now) × (length octets.now ≡ 6)
        × (signs ≡ number_of (list_from (sign_at octets.now) 0 6)) }
    ensures { (r : Record) → Legible r receiver.now.mapping receiver.now.labels.now
        → (result.mark ≡ mark_of r receiver.now.law octets.now)
        × (result.bits ≡ number_of (heard_bits r receiver.now.law last octets.now)) }
{
    let found = labels_in(receiver.law, receiver.labels, octets);
    if let Some(interval) = first_outside(found) {
        return Heard {
            mark: interval as u8 + 1,
            bits: 0,
        };
    }
    let number = number_of(receiver.mapping.sizes, found);
    if (1u64 << receiver.mapping.k) <= number {
        return Heard { mark: 7, bits: 0 };
    }
    Heard {
        mark: 0,
        bits: sign_bits_of(last, signs) | (number << 6),
    }
}
