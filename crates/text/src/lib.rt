// Text for programs: lines of standard input, bytes as lowercase hexadecimal digits, the magnitude of a signed number.
#![tactic(auto)]

ghost use Rattle.std.specs.Prelude.{◌≡◌, ◌+◌, ◌*◌, ◌/◌, ◌^◌, ◌<◌, ◌≤◌, nat_abs, length, IfSome};
ghost use Rattle.standard.specs.Lists.{list_from};
ghost use Rattle.standard.specs.Calls.{over};
ghost use Rattle.text.specs.Hex.{digit_value, digit_of, byte_in, char_of};

// The next byte of standard input; none at its end.
fn next_byte() -> Option<u8> {
    let mut one = [0];
    if io::read_full(0, &mut one) == 1 {
        return Some(one[0]);
    }
    None
}

// Reads a line of standard input, and returns its length without the newline; none at the end of the input. A line that fills `text` ends
// there.
pub fn read_line(text: &mut [u8]) -> Option<usize>
    ensures { IfSome result (λ n. n ≤ length text.new) }
{
    for (at, place) in text.iter_mut().enumerate() {
        match next_byte() {
            Some(b'\n') => return Some(at),
            Some(b) => *place = b,
            None if at == 0 => return None,
            None => return Some(at),
        }
    }
    Some(text.len())
}

// The value of a hexadecimal digit.
// By arithmetic: the definition `digit_value` gives every byte a value, and `char::to_digit` would give an option.
fn value_of(c: u8) -> u8
    ensures { (result ≡ digit_value c) × (result < 16) }
{
    if c < b'a' {
        return c.saturating_sub(b'0') % 16;
    }
    (c - 87) % 16
}

// The hexadecimal digit of a value. By arithmetic: `char::from_digit` would give an option of a character to be turned into a byte.
fn digit_of(v: u8) -> u8
    requires { v < 16 }
    ensures { result ≡ digit_of v }
{
    if v < 10 { 48 + v } else { 87 + v }
}

// The byte of two digits.
fn byte_of(high: u8, low: u8) -> u8
    ensures { result ≡ 16 * digit_value high + digit_value low }
{
    16 * value_of(high) + value_of(low)
}

// Puts the bytes of a hexadecimal text into `bytes`, and returns how many they are.
pub fn from_hex(text: &[u8], bytes: &mut [u8]) -> usize
    requires { length text.now ≤ 2 * length bytes.old }
    ensures { (result ≡ length text.now / 2)
        × (bytes.new ≡ over (list_from (byte_in text.now) 0 (length text.now / 2)) bytes.old) }
{
    let count = text.len() / 2;
    for k in 0..count {
        bytes[k] = byte_of(text[2 * k], text[2 * k + 1]);
    }
    count
}

// Puts the hexadecimal text of bytes into `text`, and returns how many characters it has.
pub fn to_hex(bytes: &[u8], text: &mut [u8]) -> usize
    requires { 2 * length bytes.now ≤ length text.old }
    ensures { (result ≡ 2 * length bytes.now)
        × (text.new ≡ over (list_from (char_of bytes.now) 0 (2 * length bytes.now)) text.old) }
{
    for (k, byte) in bytes.iter().enumerate() {
        text[2 * k] = digit_of(*byte / 16);
        text[2 * k + 1] = digit_of(*byte % 16);
    }
    2 * bytes.len()
}

// Reads a line of hexadecimal text, by way of `text`, puts its bytes into `bytes` and returns how many they are; none at the end of the
// input.
pub fn read_bytes(text: &mut [u8], bytes: &mut [u8]) -> Option<usize>
    requires { length text.old ≤ 2 * length bytes.old }
    ensures { IfSome result (λ n. n ≤ length bytes.new) }
{
    let n = read_line(text)?;
    Some(from_hex(&text[..n], bytes))
}

// Writes bytes as a line of hexadecimal text, by way of `text`, and returns whether it could.
pub fn write_bytes(bytes: &[u8], text: &mut [u8]) -> bool
    requires { 2 * length bytes.now ≤ length text.old }
    ensures { text.new ≡ over (list_from (char_of bytes.now) 0 (2 * length bytes.now))
        text.old }
{
    let end = to_hex(bytes, text);
    io::write_all(1, &text[..end]) && io::write_all(1, b"\n")
}

// The magnitude of a number.
pub fn magnitude(value: i32) -> u64
    ensures { (result ≡ nat_abs value) × (result ≤ 2 ^ 31) }
{
    u64::from(value.unsigned_abs())
}
