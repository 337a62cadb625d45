// V.91 7.3: the default digital impairment learning sequence (DIL), by the parameters of Table 5.
#![tactic(auto)]

ghost use Rattle.std.specs.Prelude.{◌≡◌, ◌<◌, length, get_or};
ghost use Rattle.standard.specs.Dil.{segment, training_symbols, table5};
ghost use Rattle.standard.specs.Refusals.{outcome_answer};
ghost use Rattle.standard.specs.Calls.{dil_call, dil_refusal, dil_octets};

use standard::{Law, Refusal};

// N, the number of DIL-segments.
pub const SEGMENTS: usize = 125;

// The symbols of a DIL-segment: (H + 1) × 6, and H is 1 for every Uchord.
pub const SEGMENT_SYMBOLS: usize = 12;

// The octets of the whole sequence.
pub const DIL_OCTETS: usize = SEGMENTS * SEGMENT_SYMBOLS;

// SP, the signs of a segment's symbols, lowest bit first. TP is all ones: every symbol is the training symbol.
const SIGNS: u32 = 0x0fc0;

// The training symbols as printed, one for each segment.
const TRAINING: [u8; SEGMENTS] = [
    124, 0, 123, 1, 122, 2, 121, 3, 120, 4, 119, 5, 118, 6, 117, 7, 116, 8, 115, 9, 114, 10, 113,
    11, 112, 12, 111, 13, 110, 14, 109, 15, 108, 16, 107, 17, 106, 18, 105, 19, 104, 20, 103, 21,
    102, 22, 101, 23, 100, 24, 99, 25, 98, 26, 97, 27, 96, 28, 95, 29, 94, 30, 93, 31, 92, 32, 91,
    33, 90, 34, 89, 35, 88, 36, 87, 37, 86, 38, 85, 39, 84, 40, 83, 41, 82, 42, 81, 43, 80, 44, 79,
    45, 78, 46, 77, 47, 76, 48, 75, 49, 74, 50, 73, 51, 72, 52, 71, 53, 70, 54, 69, 55, 68, 56, 67,
    57, 66, 58, 65, 59, 64, 60, 63, 61, 62,
];

// The training symbol of a segment, from the table.
pub fn training_symbol(segment: usize) -> u8
    requires { segment < 125 }
    ensures { (result ≡ get_or training_symbols segment 0) × (result < 128) }
{
    TRAINING[segment]
}

// The same from the generator: place 2 k holds 124 - k, and place 2 k + 1 holds k.
pub fn generated_symbol(place: usize) -> u8
    requires { place < 125 }
    ensures { (result ≡ get_or training_symbols place 0) × (result < 128) }
{
    let k = (place / 2) as u8;
    if place % 2 == 0 { 124 - k } else { k }
}

// Writes the DIL-segment of a training symbol where it belongs: an array of its own would be stored and read again at once.
fn put_segment(law: Law, training: u8, octets: &mut [u8])
    requires { (training < 128) × (length octets.old ≡ 12) }
    ensures { octets.new ≡ segment table5 law training }
{
    for (k, octet) in octets.iter_mut().enumerate() {
        *octet = pcm::octet_of(law, (SIGNS >> k) % 2 == 1, training);
    }
}

// The entry: the whole sequence into `octets`; refusal 17 where it is shorter.
pub fn send_dil(law: Law, octets: &mut [u8]) -> Result<(), Refusal>
    ensures refusal { outcome_answer result ≡ dil_refusal (dil_call law octets.old) }
    ensures written { octets.new ≡ dil_octets (dil_call law octets.old) }
{
    if octets.len() < DIL_OCTETS {
        return Err(Refusal::OutputTooShort);
    }
    for n in 0..SEGMENTS {
        let at = n * SEGMENT_SYMBOLS;
        let end = at + SEGMENT_SYMBOLS;
        put_segment(law, training_symbol(n), &mut octets[at..end]);
    }
    Ok(())
}
