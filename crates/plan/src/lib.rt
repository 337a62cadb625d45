// Masks for a wanted rate: of all masks of M points that keep a spacing, the one whose sum of squared linear values is least. It has the
// lowest Ucodes that keep it.
#![tactic(auto)]

ghost use Rattle.std.specs.Prelude.{◌≡◌, ◌≤◌, IfOk};
ghost use Rattle.standard.specs.Refusals.{outcome_answer, rate_or_spacing_outside};
ghost use Rattle.standard.specs.Calls.{plan_call, plan_refusal, plan_points, plan_halves, plan_sum, one_mask};
ghost use Rattle.plan.specs.Spacing.{largest_spacing};

use choosing::{Chosen, choose_half, points_for};
use standard::{Law, Planned, Record, Refusal};

// Whether K or the spacing is outside its range.
fn is_outside(k: u32, spacing: u32) -> bool
    ensures { result ≡ rate_or_spacing_outside k spacing }
{
    // By comparisons: with `contains` the equation of `partial_cmp` and the order of the definition stays open.
    !((15 <= k) & (k <= 42)) | !((1 <= spacing) & (spacing <= 65535))
}

// The entry: one mask for all six intervals.
pub fn plan(k: u32, law: Law, spacing: u32, ceiling: u64) -> Result<Planned, Refusal>
    ensures refusal { outcome_answer result ≡ plan_refusal (plan_call k law spacing ceiling) }
    ensures points { IfOk result (λ p. p.points ≡ plan_points (plan_call k law spacing ceiling)) }
    ensures mask { IfOk result (λ p. p.mask ≡ plan_halves (plan_call k law spacing ceiling)) }
    ensures sum { IfOk result (λ p. p.sum ≡ plan_sum (plan_call k law spacing ceiling)) }
{
    if is_outside(k, spacing) {
        return Err(Refusal::RateOrSpacingOutside);
    }
    let points = points_for(k);
    let begun = Chosen {
        bits: 0,
        floor: (spacing + 1) / 2,
        wanted: points,
        sum: 0,
    };
    let low = choose_half(law, spacing, 0, begun);
    let high = choose_half(law, spacing, 64, low);
    if high.wanted != 0 {
        return Err(Refusal::NoMask);
    }
    if ceiling < high.sum {
        return Err(Refusal::SumExceedsCeiling);
    }
    Ok(Planned {
        points,
        mask: [low.bits, high.bits],
        sum: high.sum,
    })
}

// The record with a mask for all six intervals.
pub fn one_mask(k: u32, mask: [u64; 2]) -> Record
    requires { (15 ≤ k) × (k ≤ 42) }
    ensures { result ≡ one_mask k mask }
{
    Record {
        granted: false,
        drn: (k - 14) as u8,
        acknowledge: false,
        index: [0; 6],
        mask: [mask[0], mask[1], 0, 0, 0, 0, 0, 0, 0, 0, 0, 0],
    }
}

// The largest spacing that is accepted; 0 where none is.
pub fn largest_spacing(k: u32, law: Law, ceiling: u64) -> u32
    ensures { (result ≡ largest_spacing k law ceiling) × (result ≤ 65535) }
{
    for spacing in (1..65536).rev() {
        if plan(k, law, spacing, ceiling).is_ok() {
            return spacing;
        }
    }
    0
}
