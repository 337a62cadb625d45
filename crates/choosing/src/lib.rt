// The points of a mask: how many a rate needs, and the lowest Ucodes that keep a spacing, with the sum of their squared linear values.
#![tactic(auto)]

ghost use Rattle.std.specs.Prelude.{◌≡◌, ℕ, ◌+◌, ◌*◌, ◌^◌, ◌<◌, ◌≤◌};
ghost use Rattle.standard.specs.Bits.{weight, field};
ghost use Rattle.standard.specs.Plan.{takes as Plan·takes};
ghost use Rattle.standard.specs.Plan.{points_for, looked_at, lowest_mask};
ghost use Rattle.choosing.specs.Choosing.{choice_of, Before};

use standard::Law;

// M^6.
fn sixth_power(m: u64) -> u64
    requires { m ≤ 128 }
    ensures { result ≡ m ^ 6 }
{
    let cube = m * m * m;
    cube * cube
}

// M: the least number whose sixth power is at least 2^k.
pub fn points_for(k: u32) -> u32
    requires { k ≤ 42 }
    ensures { (result ≡ points_for k) × (result ≤ 128) }
{
    let least = 1u64 << k;
    for m in 0..128 {
        if least <= sixth_power(m) {
            return m as u32;
        }
    }
    128
}

// A choice of points on its way up the Ucodes: the bits of those taken, the least value that can be taken, how many points are still
// wanted, and the sum of squares of all taken.
#[derive(Clone, Copy)]
pub struct Chosen {
    pub bits: u64,
    pub floor: u32,
    pub wanted: u32,
    pub sum: u64,
}

// Whether a value is taken: points are wanted, and it reaches the floor.
fn takes(c: Chosen, value: u32) -> bool
    ensures { result ≡ Plan·takes (choice_of c) value }
{
    c.wanted != 0 && c.floor <= value
}

// Looks at the Ucode of bit i, whose linear value is given.
fn look_at(c: Chosen, i: u32, value: u32, spacing: u32) -> Chosen
    requires { (i < 64) × (c.bits < 2 ^ i) × (c.sum < 2 ^ 63) × (value < 2 ^ 15) × (spacing < 2 ^ 16) }
    ensures { (result.bits ≡ c.bits + weight (Plan·takes (choice_of c) value) * 2 ^ i)
        × (choice_of result ≡ looked_at spacing (choice_of c) value)
        × (result.sum ≡ c.sum + weight (Plan·takes (choice_of c) value) * (value * value)) }
{
    if !takes(c, value) {
        return c;
    }
    let v = value as u64;
    Chosen {
        bits: c.bits + (1u64 << i),
        floor: value + spacing,
        wanted: c.wanted - 1,
        sum: c.sum + v * v,
    }
}

// Looks at the 64 Ucodes from `from` on.
pub fn choose_half(law: Law, spacing: u32, from: u32, c: Chosen) -> Chosen
    requires { (from ≤ 64) × (spacing < 2 ^ 16) × ((M : ℕ) × Before law spacing M from c) }
    ensures { (M : ℕ) → Before law spacing M from c
        → Before law spacing M (from + 64) result × (result.bits ≡ field (lowest_mask law spacing M) from 64) }
{
    let mut p = Chosen { bits: 0, ..c };
    for i in 0..64 {
        p = look_at(p, i, pcm::magnitude_of(law, (from + i) as u8), spacing);
    }
    p
}
