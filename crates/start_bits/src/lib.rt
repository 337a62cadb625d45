// V.91 7.2 and 7.5: bits on the line before data, an octet for each, and the history and the last sign found from 24 such octets.
#![tactic(auto)]

ghost use Rattle.std.specs.Prelude.{◌≡◌, ◌++◌, ◌+◌, ◌^◌, ◌<◌, length};
ghost use Rattle.standard.specs.Bits.{bits_in};
ghost use Rattle.standard.specs.Scrambler.{taps, push as pushBit};
ghost use Rattle.standard.specs.Start.{with_line, end_of_cp, octets_for, left_by, found_history, found_sign};

use bits::bit_of;
use pcm::{octet_of, sign_of};
use standard::{Law, LineState};

// The Ucode of every octet.
const UCODE: u8 = 66;

// The octets at the end of a CP and E_s from which the line state is found.
pub const FOUND_FROM: usize = 24;

// The bits 18 and 23 places back in a history, by XOR.
fn taps_of(history: u32) -> bool
    ensures { result ≡ taps history }
{
    bit_of(history as u64, 17) ^ bit_of(history as u64, 22)
}

// The history after one bit more.
fn push(history: u32, bit: bool) -> u32
    requires { history < 2 ^ 23 }
    ensures { (result ≡ pushBit history bit) × (result < 2 ^ 23) }
{
    (2 * history + bit as u32) % 0x80_0000
}

// A line state with another history and another last sign.
fn with_line(state: LineState, history: u32, sign: bool) -> LineState
    ensures { result ≡ with_line state history sign }
{
    LineState {
        history,
        sign,
        ..state
    }
}

// Sends the first `count` bits of a CP and then E_s, an octet for each, and answers the line state left.
// A history below 2^23 is a clause and no type: a `LineState` comes from callers unchecked, and one above is refused with 14.
// A count beside the bytes: it counts bits, which no slice does.
pub fn send_bits(
    law: Law,
    state: LineState,
    cp: &[u8],
    count: usize,
    octets: &mut [u8],
) -> LineState
    requires { (state.history < 2 ^ 23) × (length octets.old ≡ count + 12) }
    ensures { let sent = bits_in count cp.now ++ end_of_cp in
        (result ≡ left_by state sent) × (octets.new ≡ octets_for law state sent) }
{
    let mut history = state.history;
    let mut sign = state.sign;
    for (n, octet) in octets.iter_mut().enumerate() {
        let bit = (n < count) & bits::bit_at(cp, n);
        let scrambled = bit ^ taps_of(history);
        history = push(history, scrambled);
        sign = scrambled ^ sign;
        *octet = octet_of(law, sign, UCODE);
    }
    with_line(state, history, sign)
}

// The line state with the history and the last sign that 24 octets leave.
pub fn found_in(octets: &[u8], state: LineState) -> LineState
    requires { length octets.now ≡ 24 }
    ensures { result ≡ with_line state (found_history octets.now) (found_sign octets.now) }
{
    let mut history = 0;
    let mut sign = sign_of(octets[0]);
    for k in 1..FOUND_FROM {
        let next = sign_of(octets[k]);
        history = push(history, next ^ sign);
        sign = next;
    }
    with_line(state, history, sign)
}
