// K and D, and masks with their sizes, membership and labels.
#![tactic(auto)]

ghost use Rattle.std.specs.Prelude.{◌≡◌, ◌<◌, ◌≤◌};
ghost use Rattle.standard.specs.Record.{index_of, top_index, K, D};
ghost use Rattle.standard.specs.Constellation.{size_of, label_of, sizes};
ghost use Rattle.constellation.specs.Mask.{has, mask_of, Indexed};

use bits::{above, bit_of};
use standard::Record;

// K: the bits of a data frame's number R.
pub fn k_of(r: Record) -> usize
    ensures { result ≡ K r }
{
    r.drn as usize + 14
}

// D: the bits of a data frame.
pub fn d_of(r: Record) -> usize
    ensures { result ≡ D r }
{
    k_of(r) + 6
}

// A mask: Ucodes 0 to 63 and 64 to 127, a bit for each.
#[derive(Clone, Copy)]
pub struct Mask {
    pub low: u64,
    pub high: u64,
}

// The mask of interval i. An index straight into the record costs a copy of it, and a call of one frame is a third slower.
pub fn mask_of(r: Record, i: usize) -> Mask
    requires { (i < 6) × (index_of r i ≤ 5) }
    ensures { result ≡ mask_of r i }
{
    let index = r.index;
    let mask = r.mask;
    let at = 2 * (index[i] as usize);
    Mask {
        low: mask[at],
        high: mask[at + 1],
    }
}

// M: the ones of both halves.
pub fn size_of(m: Mask) -> u64
    ensures { result ≡ size_of (has m) 128 }
{
    (m.low.count_ones() + m.high.count_ones()) as u64
}

// Whether a Ucode belongs to the mask.
pub fn belongs(m: Mask, ucode: u8) -> bool
    requires { ucode < 128 }
    ensures { result ≡ has m ucode }
{
    if ucode < 64 {
        return bit_of(m.low, ucode as usize);
    }
    bit_of(m.high, (ucode - 64) as usize)
}

// The label of a Ucode: the ones above it.
pub fn label_of(m: Mask, ucode: u8) -> u64
    requires { ucode < 128 }
    ensures { result ≡ label_of (has m) 128 ucode }
{
    if ucode < 64 {
        return (above(m.low, ucode).count_ones() + m.high.count_ones()) as u64;
    }
    above(m.high, ucode - 64).count_ones() as u64
}

// M0 to M5.
pub fn sizes_of(r: Record) -> [u64; 6]
    requires { Indexed r }
    ensures { result ≡ sizes r }
{
    let mut found = [0u64; 6];
    for (i, size) in found.iter_mut().enumerate() {
        *size = size_of(mask_of(r, i));
    }
    found
}

// g: the largest of the six indices.
pub fn largest_index(r: Record) -> u8
    ensures { result ≡ top_index r }
{
    r.index.iter().copied().fold(0, u8::max)
}
