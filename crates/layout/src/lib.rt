// The fields of a CP in its bytes, by their bit numbers in V.91, Table 4: a record read from them, and put into them.
#![tactic(auto)]

ghost use Rattle.std.specs.Prelude.{◌≡◌, ◌+◌, ◌*◌, ◌^◌, ◌<◌, ◌≤◌, length, drop, replicate};
ghost use Rattle.standard.specs.Lists.{list_from};
ghost use Rattle.standard.specs.Bits.{weight, bit_at, field};
ghost use Rattle.standard.specs.Record.{top_index};
ghost use Rattle.standard.specs.Cp.{gamma, cp_length, cp_byte_count, run_place, head_fields, mask_fields, cp_bytes, index_in, half_in, record_in};
ghost use Rattle.bits.specs.PutField.{put_field};
ghost use Rattle.layout.specs.Reading.{head_in};
ghost use Rattle.layout.specs.Writing.{put_fields, run_of};

use standard::Record;

// The bits of a CP whose largest index is g.
// `g ≤ 5` is a clause and no type, here and below: what is public may ask its callers for no more than it.
pub fn cp_length(g: usize) -> usize
    requires { g ≤ 5 }
    ensures { result ≡ cp_length g }
{
    (289 + 136 * g + 5) / 6 * 6
}

// The bytes of a CP whose largest index is g.
pub fn byte_count(g: usize) -> usize
    requires { g ≤ 5 }
    ensures { result ≡ cp_byte_count g }
{
    cp_length(g).div_ceil(8)
}

// The number in a field of up to eight bits.
fn byte_field(cp: &[u8], at: usize, width: usize) -> u8
    requires { (at ≤ 2 ^ 32) × (width ≤ 8) }
    ensures { result ≡ field (bit_at cp.now) at width }
{
    bits::field_at(cp, at, width) as u8
}

// The six indices.
fn indices_in(cp: &[u8]) -> [u8; 6]
    ensures { result ≡ list_from (index_in (bit_at cp.now)) 0 6 }
{
    [
        byte_field(cp, 103, 4),
        byte_field(cp, 107, 4),
        byte_field(cp, 111, 4),
        byte_field(cp, 115, 4),
        byte_field(cp, 120, 4),
        byte_field(cp, 124, 4),
    ]
}

// Run c of mask m.
fn run_in(cp: &[u8], m: usize, c: usize) -> u64
    requires { (m < 6) × (c < 8) }
    ensures { (result ≡ field (bit_at cp.now) (run_place m c) 16) × (result < 2 ^ 16) }
{
    bits::field_at(cp, 137 + 136 * m + 17 * c, 16)
}

// Half h of the masks, in four runs; masks above g are empty.
fn half_in(cp: &[u8], g: usize, h: usize) -> u64
    requires { h < 12 }
    ensures { result ≡ half_in (bit_at cp.now) g h }
{
    let m = h / 2;
    let c = 4 * (h % 2);
    if g < m {
        return 0;
    }
    let low = run_in(cp, m, c) + 65536 * run_in(cp, m, c + 1);
    let high = run_in(cp, m, c + 2) + 65536 * run_in(cp, m, c + 3);
    low + 4294967296 * high
}

// The masks, of which those above g are empty.
fn masks_in(cp: &[u8], g: usize) -> [u64; 12]
    ensures { result ≡ list_from (half_in (bit_at cp.now) g) 0 12 }
{
    let mut mask = [0u64; 12];
    for h in 0..12 {
        mask[h] = half_in(cp, g, h);
    }
    mask
}

// The record with no masks yet.
fn head_in(cp: &[u8]) -> Record
    ensures { result ≡ head_in (bit_at cp.now) }
{
    let index = indices_in(cp);
    Record {
        granted: bits::bit_at(cp, 18),
        drn: byte_field(cp, 20, 5),
        acknowledge: bits::bit_at(cp, 33),
        index,
        mask: [0u64; 12],
    }
}

// The record that a CP carries.
pub fn record_in(cp: &[u8]) -> Record
    ensures { result ≡ record_in (bit_at cp.now) }
{
    let mut r = head_in(cp);
    let g = constellation::largest_index(r) as usize;
    let mask = masks_in(cp, g);
    r.mask = mask;
    r
}

// Puts run c of mask m: its Ucodes 16 c to 16 c + 15.
fn put_run(cp: &mut [u8], mask: [u64; 12], m: usize, c: usize)
    requires { (m < 6) × (c < 8) × (run_place m c + 16 ≤ 8 * length cp.old) }
    ensures { cp.new ≡ put_field cp.old (run_place m c) 16 (run_of mask m c) }
{
    let half = mask[2 * m + c / 4];
    let run = (half >> (16 * (c % 4))) % 65536;
    bits::put_field(cp, 137 + 136 * m + 17 * c, 16, run);
}

// Puts the masks up to g, the last run first.
fn put_masks(cp: &mut [u8], r: Record)
    requires { (top_index r ≤ 5) × (272 + gamma (top_index r) ≤ 8 * length cp.old) }
    ensures { cp.new ≡ put_fields cp.old (mask_fields r) }
{
    for k in (0..8 * (constellation::largest_index(r) as usize + 1)).rev() {
        put_run(cp, r.mask, k / 8, k % 8);
    }
}

// Puts the indices, the last of them first.
fn put_indices(cp: &mut [u8], r: Record)
    requires { 128 ≤ 8 * length cp.old }
    ensures { cp.new ≡ put_fields cp.old (drop 5 (head_fields r)) }
{
    bits::put_field(cp, 124, 4, r.index[5] as u64);
    bits::put_field(cp, 120, 4, r.index[4] as u64);
    bits::put_field(cp, 115, 4, r.index[3] as u64);
    bits::put_field(cp, 111, 4, r.index[2] as u64);
    bits::put_field(cp, 107, 4, r.index[1] as u64);
    bits::put_field(cp, 103, 4, r.index[0] as u64);
}

// Puts what stands before the masks, the last field first.
fn put_head(cp: &mut [u8], r: Record)
    requires { 128 ≤ 8 * length cp.old }
    ensures { cp.new ≡ put_fields cp.old (head_fields r) }
{
    put_indices(cp, r);
    bits::put_field(cp, 33, 1, r.acknowledge as u64);
    bits::put_field(cp, 20, 5, r.drn as u64);
    bits::put_field(cp, 19, 1, 1);
    bits::put_field(cp, 18, 1, r.granted as u64);
    bits::put_field(cp, 0, 17, 0x1ffff);
}

// Puts the whole CP into as many bytes as it has: its fields, then the CRC of what they are.
pub fn put_cp(cp: &mut [u8], r: Record)
    requires { (top_index r ≤ 5) × (length cp.old ≡ cp_byte_count (top_index r)) }
    ensures { cp.new ≡ cp_bytes r }
{
    let g = constellation::largest_index(r) as usize;
    cp.fill(0);
    put_masks(cp, r);
    put_head(cp, r);
    let crc = crc::crc_of(cp, g) as u64;
    bits::put_field(cp, 273 + 136 * g, 16, crc);
}
