// What a CP sequence is refused for: 1 to 10, 25 and 11, in stages that follow the paper's order.
#![tactic(auto)]

ghost use Rattle.std.specs.Prelude.{◌≡◌, ◌≤◌};
ghost use Rattle.standard.specs.First.{first};
ghost use Rattle.standard.specs.Bits.{bit_at};
ghost use Rattle.standard.specs.Cp.{crc_matches, start_bit_set};
ghost use Rattle.standard.specs.Refusals.{outcome_answer, sync_broken, fixed_bit_wrong};
ghost use Rattle.cp_faults.specs.Stages.{shape_tests, sequence_tests, content_tests};

use layout::cp_length;
use standard::{Record, Refusal};

// Refusal 3: one of bits 0 to 16 is 0.
fn sync_broken(cp: &[u8]) -> bool
    ensures { result ≡ sync_broken (bit_at cp.now) }
{
    bits::field_at(cp, 0, 17) != 0x1ffff
}

// `g ≤ 5` is a clause and no type, here and below: it is what `layout` and `crc`, whose functions are public, ask for.

// Refusal 6: a start bit is 1. They are the multiples of 17 from 17 to 272 + γ.
fn start_bit_set(cp: &[u8], g: usize) -> bool
    requires { g ≤ 5 }
    ensures { result ≡ start_bit_set (bit_at cp.now) g }
{
    (1..17 + 8 * g).any(|i| bits::bit_at(cp, 17 * i))
}

// Whether the CRC that was sent is that of the bits before it. Refusal 7 is that it is not.
fn crc_matches(cp: &[u8], g: usize) -> bool
    requires { g ≤ 5 }
    ensures { result ≡ crc_matches (bit_at cp.now) g }
{
    crc::crc_of(cp, g) as u64 == bits::field_at(cp, 273 + 136 * g, 16)
}

// Refusal 8: bit 19 is 0, or one of 30:32 or 128 is 1.
fn fixed_bit_wrong(cp: &[u8]) -> bool
    ensures { result ≡ fixed_bit_wrong (bit_at cp.now) }
{
    !bits::bit_at(cp, 19)
        | (bits::bit_at(cp, 30) | bits::bit_at(cp, 31) | bits::bit_at(cp, 32))
        | bits::bit_at(cp, 128)
}

// Refusals 1 to 3.
pub fn shape_fault(cp: &[u8], bit_count: usize) -> Result<(), Refusal>
    ensures { outcome_answer result ≡ first (shape_tests cp.now bit_count) }
{
    if cp.len() < bit_count.div_ceil(8) {
        return Err(Refusal::CountExceedsBytes);
    }
    if bit_count < 294 {
        return Err(Refusal::CountTooSmall);
    }
    if sync_broken(cp) {
        return Err(Refusal::SyncBroken);
    }
    Ok(())
}

// Refusals 5 to 8.
fn sequence_fault(cp: &[u8], bit_count: usize, g: usize) -> Result<(), Refusal>
    requires { g ≤ 5 }
    ensures { outcome_answer result ≡ first (sequence_tests (bit_at cp.now) bit_count g) }
{
    if bit_count != cp_length(g) {
        return Err(Refusal::LengthWrong);
    }
    if start_bit_set(cp, g) {
        return Err(Refusal::StartBitSet);
    }
    if !crc_matches(cp, g) {
        return Err(Refusal::CrcMismatch);
    }
    if fixed_bit_wrong(cp) {
        return Err(Refusal::FixedBitWrong);
    }
    Ok(())
}

// Refusals 4 to 10, 25 and 11, of the record that was read.
pub fn content_fault(cp: &[u8], bit_count: usize, r: Record) -> Result<(), Refusal>
    ensures { outcome_answer result ≡ first (content_tests (bit_at cp.now) bit_count r) }
{
    if faults::index_too_large(r) {
        return Err(Refusal::IndexTooLarge);
    }
    sequence_fault(cp, bit_count, constellation::largest_index(r) as usize)?;
    faults::rate_fault(r)
}
