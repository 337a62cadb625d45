// What a record is refused for: 4, 9 to 12 and 25.
#![tactic(auto)]

ghost use Rattle.std.specs.Prelude.{◌≡◌, ◌<◌, ◌≤◌};
ghost use Rattle.standard.specs.First.{first};
ghost use Rattle.standard.specs.Record.{index_of, top_index};
ghost use Rattle.standard.specs.Cp.{within};
ghost use Rattle.standard.specs.Constellation.{sizes};
ghost use Rattle.standard.specs.Modulus.{product};
ghost use Rattle.standard.specs.Refusals.{outcome_answer, index_too_large, granted_below_full_rate, interval_empty, product_too_small};
ghost use Rattle.standard.specs.Refusals.{mask_above_indices, empty_tests, rate_tests, record_tests};
ghost use Rattle.constellation.specs.Mask.{Indexed};

use constellation::{k_of, largest_index, mask_of, size_of, sizes_of};
use standard::{Record, Refusal};

// Refusal 4: an interval index exceeds 5.
pub fn index_too_large(r: Record) -> bool
    ensures { result ≡ index_too_large r }
{
    5 < largest_index(r)
}

// Refusal 10: granted is 1 and drn is not 28.
fn granted_below_full_rate(r: Record) -> bool
    ensures { result ≡ granted_below_full_rate r }
{
    r.granted & (r.drn != 28)
}

// M0 × M1 × M2 × M3 × M4 × M5, at most 128 ^ 6.
// `Indexed r` is a clause and no type: `rate_fault`, which is public, may ask its callers for no more than it.
fn product_of(r: Record) -> u64
    requires { Indexed r }
    ensures { result ≡ product (sizes r) }
{
    let mut found = 1;
    for size in sizes_of(r) {
        found *= size;
    }
    found
}

// Whether drn is 1 to 28.
fn rated(r: Record) -> bool
    ensures { result ≡ within 1 28 r.drn }
{
    (1 <= r.drn) & (r.drn <= 28)
}

// Refusal 25 at interval i: drn is 1 to 28 and the interval's mask is empty.
fn interval_empty(r: Record, i: usize) -> bool
    requires { (i < 6) × (index_of r i ≤ 5) }
    ensures { result ≡ interval_empty r i }
{
    rated(r) & (size_of(mask_of(r, i)) == 0)
}

// Refusal 11: drn is 1 to 28 and the product is below 2 ^ K.
fn product_too_small(r: Record) -> bool
    requires { Indexed r }
    ensures { result ≡ product_too_small r }
{
    if !rated(r) {
        return false;
    }
    product_of(r) < 1u64 << k_of(r)
}

// Refusal 12: a mask above g is not empty.
fn mask_above_indices(r: Record) -> bool
    requires { top_index r ≤ 5 }
    ensures { result ≡ mask_above_indices r }
{
    let first = 2 * (largest_index(r) as usize + 1);
    r.mask[first..].iter().any(|half| *half != 0)
}

// Refusal 25, with the lowest interval whose mask is empty.
fn empty_fault(r: Record) -> Result<(), Refusal>
    requires { Indexed r }
    ensures { outcome_answer result ≡ first (empty_tests r) }
{
    for i in 0..6 {
        if interval_empty(r, i) {
            return Err(Refusal::IntervalEmpty(i as u8));
        }
    }
    Ok(())
}

// Refusals 9, 10, 25 and 11.
pub fn rate_fault(r: Record) -> Result<(), Refusal>
    requires { Indexed r }
    ensures { outcome_answer result ≡ first (rate_tests r) }
{
    if 28 < r.drn {
        return Err(Refusal::DrnTooLarge);
    }
    if granted_below_full_rate(r) {
        return Err(Refusal::GrantedBelowFullRate);
    }
    empty_fault(r)?;
    if product_too_small(r) {
        return Err(Refusal::ProductTooSmall);
    }
    Ok(())
}

// Refusals 4, 9, 10, 25, 11 and 12.
pub fn record_fault(r: Record) -> Result<(), Refusal>
    ensures { outcome_answer result ≡ first (record_tests r) }
{
    if index_too_large(r) {
        return Err(Refusal::IndexTooLarge);
    }
    rate_fault(r)?;
    if mask_above_indices(r) {
        return Err(Refusal::MaskAboveIndices);
    }
    Ok(())
}
