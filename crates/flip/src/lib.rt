// What one flipped sign costs: which data bits change where the sign of interval i of a frame of k + 6 bits is flipped. Places are counted
// from the frame's first bit.
#![tactic(auto)]

ghost use Rattle.std.specs.Prelude.{◌≡◌, ◌+◌, ◌^◌, ◌<◌, length};
ghost use Rattle.standard.specs.Flip.{reaches as Flip·reaches, changes as Flip·changes};
ghost use Rattle.standard.specs.Flip.{next_sign, changed_places};

// Whether the scrambled bit at place a is in data bit p.
fn reaches(a: u64, p: u64) -> bool
    requires { a < 2 ^ 33 }
    ensures { result ≡ Flip·reaches a p }
{
    (p == a) | ((p == a + 18) | (p == a + 23))
}

// The place of the sign bit after that of interval i, which has the flipped sign too.
fn next_sign(k: u32, i: u32) -> u64
    ensures { (result ≡ next_sign k i) × (result < 2 ^ 33) }
{
    if i == 5 {
        return k as u64 + 6;
    }
    i as u64 + 1
}

// Whether data bit p changes.
pub fn changes(k: u32, i: u32, p: u64) -> bool
    ensures { result ≡ Flip·changes k i p }
{
    reaches(i as u64, p) ^ reaches(next_sign(k, i), p)
}

// The place after all that change.
pub fn places_end(k: u32, i: u32) -> u64
    ensures { (result ≡ next_sign k i + 24) × (result < 2 ^ 34) }
{
    next_sign(k, i) + 24
}

// How many change.
pub fn changed_count(k: u32, i: u32) -> u64
    ensures { result ≡ length (changed_places k i) }
{
    let mut count = 0;
    for p in 0..places_end(k, i) {
        count += changes(k, i, p) as u64;
    }
    count
}
