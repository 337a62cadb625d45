// Runs the calls on standard input through the entries of the settings file, and writes an answer line for each. A line is lowercase
// hexadecimal; numbers have their low byte first; a junction is 2 bytes, a record 105, a length 3, a refusal 2 (its number, 0 for none, and
// its value).
// `08`, junction, record, length of the buffer, file: a put, answered by refusal, the new file's length, buffer afterwards.
// `09`, junction, length of the buffer, file: a going back, answered in the same way.
// `0a`, junction, file: a look-up, answered by refusal and record.
#![tactic(auto)]

ghost use Rattle.std.specs.Prelude.{◌≤◌, ◌<◌, length};

use cases::{fill, put_refusal, two};
use standard::Refusal;
use text::{read_bytes, write_bytes};

// The room of a reply.
const ROOM: usize = 131072;

// The number of three bytes.
fn three(low: u8, middle: u8, high: u8) -> usize
    ensures { result < 16777216 }
{
    u32::from_le_bytes([low, middle, high, 0]) as usize
}

// The junction of a call.
fn junction_of(call: &[u8]) -> u16
    requires { 3 ≤ length call.now }
{
    u16::from_le_bytes([call[1], call[2]])
}

// Puts the answer of a put or a going back but for its buffer; where it is refused, the length is 0.
fn put_written(written: Result<usize, Refusal>, reply: &mut [u8; ROOM]) {
    put_refusal(written, reply);
    bits::put_field(reply, 16, 24, written.unwrap_or(0) as u64);
}

// Answers a put, whose buffer is filled first; nothing where the call is too short or the reply has no room.
fn answer_put(call: &[u8], reply: &mut [u8; ROOM]) -> usize
    ensures { result ≤ ROOM }
{
    if call.len() < 111 {
        return 0;
    }
    let end = 5 + three(call[108], call[109], call[110]);
    if reply.len() < end {
        return 0;
    }
    let r = forms::record_from(&call[3..]);
    let out = &mut reply[5..end];
    fill(out, 3, 7);
    put_written(
        settings::put(&call[111..], junction_of(call), r, out),
        reply,
    );
    end
}

// Answers a going back, whose buffer is filled first; nothing where the call is too short or the reply has no room.
fn answer_back(call: &[u8], reply: &mut [u8; ROOM]) -> usize
    ensures { result ≤ ROOM }
{
    if call.len() < 6 {
        return 0;
    }
    let end = 5 + three(call[3], call[4], call[5]);
    if reply.len() < end {
        return 0;
    }
    let out = &mut reply[5..end];
    fill(out, 3, 7);
    put_written(settings::go_back(&call[6..], junction_of(call), out), reply);
    end
}

// Answers a look-up; nothing where the call is too short. Where it is refused, zeros stand for the record.
fn answer_look(call: &[u8], reply: &mut [u8; ROOM]) -> usize
    ensures { result ≤ ROOM }
{
    if call.len() < 3 {
        return 0;
    }
    let found = settings::look_up(&call[3..], junction_of(call));
    put_refusal(found, reply);
    match found {
        Ok(r) => forms::record_into(r, &mut reply[2..]),
        Err(_) => reply[2..107].fill(0),
    }
    107
}

// Answers a call of any kind; nothing where the call is too short or of no kind.
fn answer_call(call: &[u8], reply: &mut [u8; ROOM]) -> usize
    ensures { result ≤ ROOM }
{
    match call.first() {
        Some(8) => answer_put(call, reply),
        Some(9) => answer_back(call, reply),
        Some(10) => answer_look(call, reply),
        _ => 0,
    }
}

// Answers call after call. The loop stands in each of these programs: over a closure it would still need the three buffers, and clauses on
// what the closure asks of the reply and how much of it is made.
fn main() {
    let mut bytes = [0; 131072];
    let mut reply = [0; ROOM];
    let mut text = [0; 262144];
    for _ in 0..u64::MAX {
        let Some(n) = read_bytes(&mut text, &mut bytes) else {
            return;
        };
        let made = answer_call(&bytes[0..n], &mut reply);
        if !write_bytes(&reply[0..made], &mut text) {
            return;
        }
    }
}
