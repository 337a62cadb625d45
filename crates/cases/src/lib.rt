// What the calls of the vectors have in common: a law and a length in bytes, a buffer filled before a call, and a refusal in a reply.
#![tactic(auto)]

ghost use Rattle.std.specs.Prelude.{◌≡◌, ◌+◌, ◌*◌, ◌<◌, ◌≤◌, length};
ghost use Rattle.standard.specs.Lists.{list_from};
ghost use Rattle.standard.specs.Refusals.{outcome_answer};
ghost use Rattle.cases.specs.Cases.{law_of, name_of, filling, with_refusal};

use standard::{Law, Refusal};

// The law of a number.
// The number is the vectors'. A `From<u8>` for Law could stand in `standard` alone, where a number is no law.
pub fn law_of(number: u8) -> Law
    ensures { result ≡ law_of number }
{
    match number {
        0 => Law::Mu,
        _ => Law::A,
    }
}

// The name of a law, as the vectors print it.
pub fn name_of(law: Law) -> &'static str
    ensures { result.now ≡ name_of law }
{
    match law {
        Law::Mu => "mu",
        Law::A => "a",
    }
}

// The number of two bytes.
pub fn two(low: u8, high: u8) -> usize
    ensures { (result ≡ low + 256 * high) × (result < 65536) }
{
    usize::from(u16::from_le_bytes([low, high]))
}

// Fills a buffer: byte i is (first + step * i) mod 256.
pub fn fill(buffer: &mut [u8], first: u8, step: u8)
    ensures { buffer.new ≡ list_from (filling first step) 0 (length buffer.old) }
{
    let mut value = first;
    for byte in buffer.iter_mut() {
        *byte = value;
        value = value.wrapping_add(step);
    }
}

// Puts the refusal of an outcome: its number and its value, a byte each.
pub fn put_refusal<T: Drop>(outcome: Result<T, Refusal>, reply: &mut [u8])
    requires { 2 ≤ length reply.old }
    ensures { reply.new ≡ with_refusal (outcome_answer outcome) reply.old }
{
    let code = codes::code_of(outcome).to_le_bytes();
    reply[0] = code[0];
    reply[1] = code[3];
}
