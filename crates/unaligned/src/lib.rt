// Bits from any place of a buffer on, whether they fill bytes or not, and the control channel's data in digits.
#![tactic(auto)]

ghost use Rattle.std.specs.Prelude.{◌≡◌, map, ◌+◌, ◌^◌, ◌≤◌, length};
ghost use Rattle.standard.specs.Bits.{bit_at, bytes_of, field, odd, number_of};
ghost use Rattle.unaligned.specs.Digits.{digits_of};
ghost use Rattle.unaligned.specs.Later.{later, differing as Later·differing};

// Writes the data of a control sequence in digits; the first is bit 2 of `word`.
pub fn put_digits(word: u64, digits: &mut [u8])
    requires { length digits.old ≤ 54 }
    ensures { digits.new ≡ digits_of word (length digits.old) }
{
    for (i, digit) in digits.iter_mut().enumerate() {
        *digit = b'0' + bits::bit_of(word, i + 2) as u8;
    }
}

// The number in binary digits, the lowest first.
pub fn number_of(digits: &[u8]) -> u64
    requires { length digits.now ≤ 54 }
    ensures { result ≡ number_of (map odd digits.now) }
{
    let mut number = 0;
    for i in (0..digits.len()).rev() {
        number = 2 * number + u64::from(digits[i]) % 2;
    }
    number
}

// The byte in the eight bits from bit `at` on.
pub fn byte_at(bytes: &[u8], at: usize) -> u8
    requires { at ≤ 2 ^ 32 }
    ensures { result ≡ field (bit_at bytes.now) at 8 }
{
    (bits::field_at(bytes, at, 8) % 256) as u8
}

// Fills `out` with the bits from bit `at` on.
pub fn copy_bits(bytes: &[u8], at: usize, out: &mut [u8])
    requires { (at ≤ 2 ^ 16) × (length out.old ≤ 2 ^ 16) }
    ensures { out.new ≡ bytes_of (length out.old) (later at (bit_at bytes.now)) }
{
    for (i, byte) in out.iter_mut().enumerate() {
        *byte = byte_at(bytes, at + 8 * i);
    }
}

// How many of the `count` bits from bit `at` on are not the same in two buffers.
// A count beside the bytes: it counts bits, which no slice does.
pub fn differing(a: &[u8], b: &[u8], at: usize, count: usize) -> usize
    requires { at + count ≤ 2 ^ 32 }
    ensures { result ≡ Later·differing (bit_at a.now) (bit_at b.now) at count }
{
    let mut differ = 0;
    for i in 0..count {
        differ += (bits::bit_at(a, at + i) ^ bits::bit_at(b, at + i)) as usize;
    }
    differ
}
