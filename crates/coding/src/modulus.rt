// The modulus encoder. R is divided once, by three sizes together; quotient and remainder are below 2 ^ 21, where dividing
// by M is a product with the reciprocal of M, 2 ^ 28 / M rounded up, and a shift.
ghost use Rattle.std.specs.Prelude.{◌≡◌, ℕ, ◌/◌, ◌%◌, ◌^◌, ◌≤◌, ◌<◌, get_or};
ghost use Rattle.standard.specs.Modulus.{product, labels};
ghost use Rattle.standard.specs.Lists.{list_from};
ghost use Rattle.coding.specs.Reciprocals.{reciprocal, reciprocal_of};

// 2 ^ 28 / size, rounded up; 0 for a size of 0, by which nothing is divided.
fn reciprocal_of(size: u64) -> u64
    ensures { result ≡ reciprocal size }
{
    if size == 0 {
        return 0;
    }
    0xfff_ffff / size + 1
}

// The reciprocals of six sizes.
pub fn reciprocals_of(sizes: [u64; 6]) -> [u64; 6]
    ensures { result ≡ list_from (reciprocal_of sizes) 0 6 }
{
    let mut found = [0u64; 6];
    for (i, inverse) in found.iter_mut().enumerate() {
        *inverse = reciprocal_of(sizes[i]);
    }
    found
}

// A number divided by a size: the label that it gives, and what is left.
#[derive(Clone, Copy)]
struct Divided {
    label: u64,
    left: u64,
}

// The remainder and the quotient of a number below 2 ^ 21 by a size, whose reciprocal is `inverse`.
fn divide(number: u64, size: u64, inverse: u64) -> Divided
    requires { (number < 2 ^ 21) × (0 < size) × (size ≤ 128) × (inverse ≡ reciprocal size) }
    ensures { (result.label ≡ number % size) × (result.left ≡ number / size) }
{
    let left = (number * inverse) >> 28;
    Divided {
        label: number - size * left,
        left: left,
    }
}

// The six labels of a number R: the remainders by M0 to M4, and what is left. `inverses` has the sizes' reciprocals.
pub fn labels_of(sizes: [u64; 6], inverses: [u64; 6], number: u64) -> [u64; 6]
    requires { (number < product sizes) × ((i : ℕ) → get_or sizes i 0 ≤ 128) × (inverses ≡ list_from (reciprocal_of sizes) 0 6) }
    ensures { result ≡ labels sizes number }
{
    let three = sizes[0] * sizes[1] * sizes[2];
    let a = divide(number % three, sizes[0], inverses[0]);
    let b = divide(a.left, sizes[1], inverses[1]);
    let c = divide(number / three, sizes[3], inverses[3]);
    let d = divide(c.left, sizes[4], inverses[4]);
    [a.label, b.label, b.left, c.label, d.label, d.left]
}
