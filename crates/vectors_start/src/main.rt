// Runs the calls on standard input through the sender of a CP and E_s and the finder of a line state, and writes an answer line for each. A
// line is lowercase hexadecimal; numbers have their low byte first; a record is 105 bytes, a law 1 (0 is µ-law), a state 21, a length 2, a
// refusal 2 (its number, 0 for none, and its value).
// `05`, record, law, state, length of the octet buffer: answered by refusal, octet count in two bytes, state, octet buffer afterwards.
// `06`, state, octets: by refusal and state.
#![tactic(auto)]

ghost use Rattle.std.specs.Prelude.{◌≤◌, length};

use cases::{fill, law_of, put_refusal, two};
use text::{read_bytes, write_bytes};

// The room of a reply.
const ROOM: usize = 2048;

// Answers a call of the sender, whose octet buffer is filled first; nothing where the call is too short or the reply has no room.
fn answer_send(call: &[u8], reply: &mut [u8; ROOM]) -> usize
    ensures { result ≤ ROOM }
{
    if call.len() < 130 {
        return 0;
    }
    let end = 25 + two(call[128], call[129]);
    if reply.len() < end {
        return 0;
    }
    let r = forms::record_from(&call[1..]);
    let mut state = states::state_from(&call[107..]);
    fill(&mut reply[25..end], 3, 7);
    let sent = start::send_cp(r, law_of(call[106]), &mut state, &mut reply[25..end]);
    put_refusal(sent, reply);
    bits::put_field(reply, 16, 16, sent.unwrap_or(0) as u64);
    states::state_into(state, &mut reply[4..]);
    end
}

// Answers a call of the finder; nothing where the call is too short.
fn answer_find(call: &[u8], reply: &mut [u8; ROOM]) -> usize
    ensures { result ≤ ROOM }
{
    if call.len() < 22 {
        return 0;
    }
    let mut state = states::state_from(&call[1..]);
    put_refusal(start::find_state(&call[22..], &mut state), reply);
    states::state_into(state, &mut reply[2..]);
    23
}

// Answers a call of either kind; nothing where the call is too short or of no kind.
fn answer_call(call: &[u8], reply: &mut [u8; ROOM]) -> usize
    ensures { result ≤ ROOM }
{
    match call.first() {
        Some(5) => answer_send(call, reply),
        Some(6) => answer_find(call, reply),
        _ => 0,
    }
}

// Answers call after call. The loop stands in each of these programs: over a closure it would still need the three buffers, and clauses on
// what the closure asks of the reply and how much of it is made.
fn main() {
    let mut bytes = [0; 2048];
    let mut reply = [0; ROOM];
    let mut text = [0; 4096];
    for _ in 0..u64::MAX {
        let Some(n) = read_bytes(&mut text, &mut bytes) else {
            return;
        };
        let made = answer_call(&bytes[0..n], &mut reply);
        if !write_bytes(&reply[0..made], &mut text) {
            return;
        }
    }
}
