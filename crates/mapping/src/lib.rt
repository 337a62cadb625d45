// What the frames of a call need of its record, drawn up once: K, D and the sizes, and for each interval the Ucodes of its mask
// in label order and the label of each Ucode or none.
#![tactic(auto)]

ghost use Rattle.std.specs.Prelude.{◌≡◌, ℕ, ◌+◌, ◌≤◌, ◌<◌, Bool, set};
ghost use Rattle.standard.specs.Record.{index_of};
ghost use Rattle.standard.specs.Constellation.{label_of, member};
ghost use Rattle.constellation.specs.Mask.{has, Indexed};
ghost use Rattle.mapping.specs.Tables.{point_table, label_table, point_tables, label_tables, mapping_of, DrawnBefore, FirstNaming};
ghost use Rattle.mapping.specs.Drawing.{left_in, Drawing};

use constellation::{Mask, d_of, k_of, label_of, mask_of, size_of, sizes_of};
use standard::Record;

// K, D and M0 to M5.
#[derive(Clone, Copy)]
pub struct Mapping {
    pub k: usize,
    pub d: usize,
    pub sizes: [u64; 6],
}

// Draws the Ucodes of half a mask into both tables, the smallest first: bit k stands for Ucode first + k, and the labels
// go down from end - 1. A turn takes the lowest one off what is left, so no range counts it.
// Two tables side by side, here and below: one is by label and one by Ucode, so no place of one belongs to that place of the other.
fn draw_half(half: u64, first: u8, end: usize, points: &mut [u8; 128], labels: &mut [u8; 128])
    requires { (first ≤ 64) × ((m : ℕ → Bool) × Drawing m (left_in half first m) points.old labels.old end) }
    ensures { (m : ℕ → Bool) → Drawing m (left_in half first m) points.old labels.old end
        → Drawing m (left_in 0 first m) points.new labels.new (label_of m 128 (first + 63)) }
{
    let mut left = half;
    let mut c = end;
    while 0 < left {
        let u = first + left.trailing_zeros() as u8;
        let at = u as usize;
        c -= 1;
        points[c] = u;
        labels[at] = c as u8;
        left &= left - 1;
    }
}

// Draws up both tables of a mask; 255 is no label, as the definition `label_or_none` has it. The labels of its lower half go down from M - 1;
// the label of Ucode 63 says how many Ucodes are above it, so those of its upper half go down from one less.
fn draw(m: Mask, points: &mut [u8; 128], labels: &mut [u8; 128])
    ensures { (points.new ≡ point_table (has m)) × (labels.new ≡ label_table (has m)) }
{
    *points = [0u8; 128];
    *labels = [255u8; 128];
    draw_half(m.low, 0, size_of(m) as usize, points, labels);
    draw_half(m.high, 64, label_of(m, 63) as usize, points, labels);
}

// The first interval that names the mask of interval i.
fn first_naming(r: Record, i: usize) -> usize
    requires { i < 6 }
    ensures { FirstNaming r i result }
{
    let index = r.index;
    for j in 0..i {
        if index[j] == index[i] {
            return j;
        }
    }
    i
}

// Draws up the tables of interval i after those of the intervals before it. Where one of these names the same mask, its
// tables are copied.
fn draw_interval(r: Record, i: usize, points: &mut [[u8; 128]; 6], labels: &mut [[u8; 128]; 6])
    requires { (i < 6) × (index_of r i ≤ 5) × DrawnBefore r points.old labels.old i }
    ensures { (points.new ≡ set points.old i (point_table (member r i)))
        × (labels.new ≡ set labels.old i (label_table (member r i))) }
{
    let j = first_naming(r, i);
    if j < i {
        points[i] = points[j];
        labels[i] = labels[j];
        return;
    }
    draw(mask_of(r, i), &mut points[i], &mut labels[i]);
}

// Draws up the tables of all six intervals, and answers K, D and the sizes.
pub fn draw_up(r: Record, points: &mut [[u8; 128]; 6], labels: &mut [[u8; 128]; 6]) -> Mapping
    requires { Indexed r }
    ensures { (result ≡ mapping_of r) × (points.new ≡ point_tables r) × (labels.new ≡ label_tables r) }
{
    for i in 0..6 {
        draw_interval(r, i, points, labels);
    }
    Mapping {
        k: k_of(r),
        d: d_of(r),
        sizes: sizes_of(r),
    }
}
