// The scrambler of V.34 and its inverse, many bits at a time. A history has weight 1 for its latest bit; here it is turned
// into the order of time, the past, with weight 1 for the oldest.
ghost use Rattle.std.specs.Prelude.{◌≡◌, ◌^◌, ◌<◌, ◌≤◌};
ghost use Rattle.standard.specs.Bits.{number_of, bits_of};
ghost use Rattle.standard.specs.Scrambler.{push_all, descramble};
ghost use Rattle.coding.specs.Past.{turned, Scrambled};

use bits::bit_of;

// Bits that passed the scrambler or the descrambler, and the past after them.
#[derive(Clone, Copy)]
pub struct Passed {
    pub past: u32,
    pub bits: u64,
}

// The past of a history, and the history of a past.
pub fn turn(history: u32) -> u32
    ensures { result ≡ turned history }
{
    let mut past: u32 = 0;
    for k in 0..23 {
        past = 2 * past + bit_of(history as u64, k) as u32;
    }
    past
}

// The past after a frame of the `count` lowest bits of `line`: nine bits of it at most are older than they are.
// The bounds are clauses, here and below: a type of a past would stand around one number of `frame::Carried`, which `Bounded` bounds.
pub fn past_after(past: u32, line: u64, count: usize) -> u32
    requires { (past < 2 ^ 23) × (14 ≤ count) × (count ≤ 48) }
    ensures { result ≡ turned (push_all (turned past) (bits_of count line)) }
{
    ((((past >> 14) as u64 | (line << 9)) >> (count - 14)) % 0x80_0000) as u32
}

// At most 18 bits, scrambled: the taps reach none of them.
fn scramble_some(past: u32, bits: u64, n: usize) -> Passed
    requires { (past < 2 ^ 23) × (n ≤ 18) }
    ensures { Scrambled past bits n result.bits result.past }
{
    let line = (bits ^ ((past >> 5) as u64) ^ (past as u64)) % (1u64 << n);
    Passed {
        past: ((((past as u64) | (line << 23)) >> n) % 0x80_0000) as u32,
        bits: line,
    }
}

// A frame of the `count` lowest bits of `bits`, scrambled: 18 bits a step, of which the last step's are cut.
pub fn scramble_past(past: u32, bits: u64, count: usize) -> Passed
    requires { (past < 2 ^ 23) × (14 ≤ count) × (count ≤ 48) }
    ensures { Scrambled past bits count result.bits result.past }
{
    let rest = bits >> 18;
    let a = scramble_some(past, bits, 18);
    let b = scramble_some(a.past, rest, 18);
    let c = scramble_some(b.past, rest >> 18, 12);
    let sent = (a.bits | ((b.bits | (c.bits << 18)) << 18)) % (1u64 << count);
    Passed {
        past: past_after(past, sent, count),
        bits: sent,
    }
}

// A frame of the `count` lowest bits of `line`, descrambled.
pub fn descramble_past(past: u32, line: u64, count: usize) -> Passed
    requires { (past < 2 ^ 23) × (14 ≤ count) × (count ≤ 48) }
    ensures { (result.bits ≡ number_of (descramble (turned past) (bits_of count line)))
        × (result.past ≡ turned (push_all (turned past) (bits_of count line))) }
{
    let all = (past as u64) | (line << 23);
    let plain = (line ^ (all >> 5) ^ all) % (1u64 << count);
    Passed {
        past: past_after(past, line, count),
        bits: plain,
    }
}
