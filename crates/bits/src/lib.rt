// Bits in byte buffers and in numbers: bit n of a buffer is in byte n / 8, with weight 2 ^ (n % 8), and fields have their lowest bit first.
#![tactic(auto)]

ghost use Rattle.std.specs.Prelude.{◌≡◌, ◌+◌, ◌*◌, ◌/◌, ◌%◌, ◌^◌, ◌<◌, ◌≤◌, length};
ghost use Rattle.standard.specs.Bits.{weight, bit, bit_at, field, bytes_for};
ghost use Rattle.bits.specs.PutField.{word_with, put_field, Holds, holding, filling};

// Bit n of the bytes; 0 past their end.
// Places, widths and bit numbers are parameters with clauses, here and below: each call has others, so a type of them would be made for it.
pub fn bit_at(bytes: &[u8], n: usize) -> bool
    ensures { result ≡ bit_at bytes.now n }
{
    let at = n / 8;
    if at < bytes.len() {
        return (bytes[at] >> (n % 8)) % 2 == 1;
    }
    false
}

// A number of k bytes with one byte more, on top.
fn with_byte(word: u64, k: usize, byte: u8) -> u64
    requires { (k < 8) × (word < 2 ^ (8 * k)) }
    ensures { (result ≡ byte * 2 ^ (8 * k) + word) × (byte < 256) }
{
    word | (u64::from(byte) << (8 * k))
}

// The k bytes from byte i on, as a number. `from_le_bytes` would take eight, and no fewer.
fn bytes_at(bytes: &[u8], i: usize, k: usize) -> u64
    requires { (k ≤ 8) × (i + k ≤ length bytes.now) }
    ensures { result ≡ field (bit_at bytes.now) (8 * i) (8 * k) }
{
    let mut word: u64 = 0;
    for j in 0..k {
        word = with_byte(word, j, bytes[i + j]);
    }
    word
}

// The eight bytes from byte i on, as a number.
pub fn word_at(bytes: &[u8], i: usize) -> u64
    requires { i + 8 ≤ length bytes.now }
    ensures { result ≡ field (bit_at bytes.now) (8 * i) 64 }
{
    bytes_at(bytes, i, 8)
}

// The eight bytes from byte i on, as a number; zeros follow the last byte.
fn word_from(bytes: &[u8], i: usize) -> u64
    requires { i ≤ 2 ^ 32 }
    ensures { result ≡ field (bit_at bytes.now) (8 * i) 64 }
{
    if i + 8 <= bytes.len() {
        return word_at(bytes, i);
    }
    if bytes.len() < i {
        return 0;
    }
    bytes_at(bytes, i, bytes.len() - i)
}

// The number in the `width` bits from bit `at` on, bit by bit.
fn field_by_bits(bytes: &[u8], at: usize, width: usize) -> u64
    requires { (width ≤ 64) × (at ≤ 2 ^ 32) }
    ensures { result ≡ field (bit_at bytes.now) at width }
{
    let mut value: u64 = 0;
    for i in (0..width).rev() {
        let b = bit_at(bytes, at + i);
        value = 2 * value + b as u64;
    }
    value
}

// The number in the `width` bits from bit `at` on, lowest bit first.
pub fn field_at(bytes: &[u8], at: usize, width: usize) -> u64
    requires { (width ≤ 64) × (at ≤ 2 ^ 32) }
    ensures { result ≡ field (bit_at bytes.now) at width }
{
    let first = at / 8;
    let shift = at % 8;
    if 63 < shift + width {
        return field_by_bits(bytes, at, width);
    }
    (word_from(bytes, first) >> shift) % (1u64 << width)
}

// The word with the lowest bits of `value` in place of its `width` bits from bit `shift` on.
fn word_with(word: u64, shift: usize, width: usize, value: u64) -> u64
    requires { shift + width < 64 }
    ensures { result ≡ word_with word shift width value }
{
    let other = ((word >> shift) ^ value) % (1u64 << width);
    word ^ (other << shift)
}

// The lowest byte of a number.
// An `as` alone has to fit its type, so the remainder is written out.
fn low_byte(word: u64) -> u8
    ensures { result ≡ word % 256 }
{
    (word % 256) as u8
}

// Puts the lowest byte of a number into byte i.
fn put_byte(bytes: &mut [u8], i: usize, word: u64)
    requires { i < length bytes.old }
    ensures { bytes.new ≡ put_field bytes.old (8 * i) 8 word }
{
    bytes[i] = low_byte(word);
}

// Puts the k lowest bytes of a number into those from byte i on.
pub fn put_bytes(bytes: &mut [u8], i: usize, k: usize, word: u64)
    requires { (k ≤ 8) × (i + k ≤ length bytes.old) }
    ensures { bytes.new ≡ put_field bytes.old (8 * i) (8 * k) word }
{
    for j in 0..k {
        put_byte(bytes, i + j, word >> (8 * j));
    }
}

// Puts the eight bytes of a number into those from byte i on.
pub fn put_word(bytes: &mut [u8], i: usize, word: u64)
    requires { i + 8 ≤ length bytes.old }
    ensures { bytes.new ≡ put_field bytes.old (8 * i) 64 word }
{
    put_bytes(bytes, i, 8, word);
}

// Puts the lowest bit of `value` into bit n; all other bits stay.
fn put_bit(bytes: &mut [u8], n: usize, value: u64)
    requires { n < 8 * length bytes.old }
    ensures { bytes.new ≡ put_field bytes.old n 1 value }
{
    let at = n / 8;
    let word = u64::from(bytes[at]);
    put_byte(bytes, at, word_with(word, n % 8, 1, value));
}

// Puts the `width` lowest bits of `value` into the bits from `at` on, bit by bit.
fn put_by_bits(bytes: &mut [u8], at: usize, width: usize, value: u64)
    requires { (width ≤ 64) × (at ≤ 2 ^ 32) × (at + width ≤ 8 * length bytes.old) }
    ensures { bytes.new ≡ put_field bytes.old at width value }
{
    for i in 0..width {
        put_bit(bytes, at + i, value >> i);
    }
}

// Puts the `width` lowest bits of `value` into the bits from `at` on, lowest first; all other bits stay.
pub fn put_field(bytes: &mut [u8], at: usize, width: usize, value: u64)
    requires { (width ≤ 64) × (at ≤ 2 ^ 32) × (at + width ≤ 8 * length bytes.old) }
    ensures { bytes.new ≡ put_field bytes.old at width value }
{
    let first = at / 8;
    let shift = at % 8;
    if (bytes.len() < first + 8) | (63 < shift + width) {
        put_by_bits(bytes, at, width, value);
        return;
    }
    let word = word_at(bytes, first);
    put_word(bytes, first, word_with(word, shift, width, value));
}

// Bits poured into bytes, the earliest first: `count` of them, fewer than 64, are held until they fill the eight bytes
// from byte `to` on.
#[derive(Clone, Copy)]
pub struct Pouring {
    pub to: usize,
    pub count: usize,
    pub held: u64,
}

// The bits held with those of `value` above them, as far as they go into a word.
fn joined_word(held: u64, count: usize, value: u64) -> u64
    requires { (count < 64) × (held < 2 ^ count) }
    ensures { result ≡ (value * 2 ^ count + held) % 2 ^ 64 }
{
    held | (value << count)
}

// Pours the `width` bits of `value`, which has no more.
pub fn pour(bytes: &mut [u8], p: Pouring, width: usize, value: u64) -> Pouring
    requires { Holds p × (width < 64) × (8 * p.to + p.count + width ≤ 8 * length bytes.old) }
    ensures { (result ≡ holding p width value) × (bytes.new ≡ filling bytes.old p width value) }
{
    let count = p.count + width;
    let word = joined_word(p.held, p.count, value);
    if count < 64 {
        return Pouring {
            to: p.to,
            count,
            held: word,
        };
    }
    put_word(bytes, p.to, word);
    Pouring {
        to: p.to + 8,
        count: count - 64,
        held: value >> (64 - p.count),
    }
}

// Puts the bits that are held, and zeros into the rest of the last byte. By arithmetic, as the definition `bytes_for` has it.
pub fn pour_out(bytes: &mut [u8], p: Pouring)
    requires { Holds p × (p.to + bytes_for p.count ≤ length bytes.old) }
    ensures { bytes.new ≡ put_field bytes.old (8 * p.to) (8 * bytes_for p.count) p.held }
{
    put_bytes(bytes, p.to, (p.count + 7) / 8, p.held);
}

// Bit n of a number.
pub fn bit_of(word: u64, n: usize) -> bool
    requires { n < 64 }
    ensures { result ≡ bit word n }
{
    (word >> n) & 1 == 1
}

// A number of n bits with one bit more, on top.
pub fn with_top(word: u64, n: usize, top: bool) -> u64
    requires { (n < 64) × (word < 2 ^ n) }
    ensures { result ≡ word + weight top * 2 ^ n }
{
    word | ((top as u64) << n)
}

// The bits of a number above bit n.
pub fn above(word: u64, n: u8) -> u64
    requires { n < 64 }
    ensures { result ≡ word / 2 ^ n / 2 }
{
    (word >> n) >> 1
}
