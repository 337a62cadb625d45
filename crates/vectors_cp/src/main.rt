// Runs the calls on standard input through the CP reader and writer, and writes an answer line for each. A line is lowercase hexadecimal:
// `00`, the bit count in eight bytes and the CP, which `refusal, record` answers; or `01`, a record and a buffer, which
// `refusal, bit count in two bytes, buffer afterwards` answers. A refusal is its number (0 for none) and its value, a byte each. Numbers
// have their low byte first, and a record is 105 bytes.
#![tactic(auto)]

ghost use Rattle.std.specs.Prelude.{◌≡◌, ◌≤◌, length};

use cases::put_refusal;
use text::{read_bytes, write_bytes};

// The room of a reply.
const ROOM: usize = 512;

// Answers a call of the reader: bit count and CP. Where it is refused, zeros stand for the record.
fn answer_read(call: &[u8], reply: &mut [u8; ROOM]) -> usize
    requires { 8 ≤ length call.now }
    ensures { result ≡ 107 }
{
    let read = cp::read_cp(&call[8..], bits::word_at(call, 0) as usize);
    put_refusal(read, reply);
    match read {
        Ok(r) => forms::record_into(r, &mut reply[2..]),
        Err(_) => reply[2..107].fill(0),
    }
    107
}

// Answers a call of the writer: record and buffer; nothing where there is no room.
fn answer_write(call: &[u8], reply: &mut [u8; ROOM]) -> usize
    requires { 105 ≤ length call.now }
    ensures { result ≤ ROOM }
{
    let (rec, buffer) = call.split_at(105);
    let end = 4 + buffer.len();
    if reply.len() < end {
        return 0;
    }
    reply[4..end].copy_from_slice(buffer);
    let written = cp::write_cp(forms::record_from(rec), &mut reply[4..end]);
    put_refusal(written, reply);
    bits::put_field(reply, 16, 16, written.unwrap_or(0) as u64);
    end
}

// Answers a call of either kind; nothing where the call is too short or there is no room.
fn answer_call(call: &[u8], reply: &mut [u8; ROOM]) -> usize
    ensures { result ≤ ROOM }
{
    if call.len() < 9 {
        return 0;
    }
    match call[0] {
        0 => answer_read(&call[1..], reply),
        _ if 106 <= call.len() => answer_write(&call[1..], reply),
        _ => 0,
    }
}

// Answers call after call. The loop stands in each of these programs: over a closure it would still need the three buffers, and clauses on
// what the closure asks of the reply and how much of it is made.
fn main() {
    let mut bytes = [0; 512];
    let mut reply = [0; ROOM];
    let mut text = [0; 1024];
    for _ in 0..u64::MAX {
        let Some(n) = read_bytes(&mut text, &mut bytes) else {
            return;
        };
        let made = answer_call(&bytes[0..n], &mut reply);
        if !write_bytes(&reply[0..made], &mut text) {
            return;
        }
    }
}
