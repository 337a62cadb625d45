// Runs the calls on standard input through the frame sender, the frame receiver and the linear samples, and writes an answer line for
// each. A line is lowercase hexadecimal; numbers have their low byte first; a record is 105 bytes, a law 1 (0 is µ-law), the frames 8,
// a state 21 (history 4, last sign, doubtful bits, frame place, sequence place, the sequence's bits 12, whether it is lost), the control
// channel's choice 1 (0 is off), the bits of a sequence that starts 8, what is heard 8 (its kind and 7 of bits), a length 2, a refusal 2
// (its number, 0 for none, and its value).
// `02`, record, law, frames, state, choice, sequence, length of the octet buffer, data: answered by refusal, state, octet buffer
// afterwards.
// `03`, record, law, frames, state, choice, lengths of the bits buffer and the marks buffer, octets: by refusal, state, what is heard, both
// buffers afterwards.
// `04`, law, length of the samples buffer, octets: by refusal and samples, 4 bytes each in two's complement.
#![tactic(auto)]

ghost use Rattle.std.specs.Prelude.{◌*◌, ◌+◌, ◌≤◌, length};

use cases::{fill, law_of, put_refusal, two};
use standard::{Law, LineState, Record, Refusal, Said};
use text::{read_bytes, write_bytes};

// The room of a reply.
const ROOM: usize = 8192;

// The most marks and the most samples that a call of the receiver and one for samples can ask for.
const MOST_MARKS: usize = 2048;

const MOST_SAMPLES: usize = 512;

// What calls of the sender and of the receiver have in common.
#[derive(Clone, Copy)]
struct Setup {
    cp: Record,
    law: Law,
    frames: usize,
    state: LineState,
    control: bool,
}

// The record, the law, the frames, the state and the choice of a call.
fn setup_at(call: &[u8]) -> Setup
    requires { 137 ≤ length call.now }
{
    Setup {
        cp: forms::record_from(&call[1..]),
        law: law_of(call[106]),
        frames: bits::word_at(call, 107) as usize,
        state: states::state_from(&call[115..]),
        control: call[136] != 0,
    }
}

// Puts the refusal and the state left.
fn put_left<T: Drop>(outcome: Result<T, Refusal>, state: LineState, reply: &mut [u8; ROOM]) {
    put_refusal(outcome, reply);
    states::state_into(state, &mut reply[2..]);
}

// Answers a call of the sender, whose octet buffer is filled first; nothing where the call is too short or the reply has no room.
fn answer_send(call: &[u8], reply: &mut [u8; ROOM]) -> usize
    ensures { result ≤ ROOM }
{
    if call.len() < 147 {
        return 0;
    }
    let end = 23 + two(call[145], call[146]);
    if reply.len() < end {
        return 0;
    }
    let Setup {
        cp,
        law,
        frames,
        mut state,
        control,
    } = setup_at(call);
    let word = bits::word_at(call, 137);
    let octets = &mut reply[23..end];
    fill(octets, 3, 7);
    let sent = codec::send(
        cp,
        law,
        frames,
        control,
        word,
        &mut state,
        &call[147..],
        octets,
    );
    put_left(sent, state, reply);
    end
}

// Answers a call of the receiver, whose buffers are filled first; nothing where the call is too short or there is no room.
fn answer_receive(call: &[u8], reply: &mut [u8; ROOM]) -> usize
    ensures { result ≤ ROOM }
{
    if call.len() < 141 {
        return 0;
    }
    let bits_end = 31 + two(call[137], call[138]);
    let count = two(call[139], call[140]);
    let end = bits_end + count;
    if MOST_MARKS < count || reply.len() < end {
        return 0;
    }
    let Setup {
        cp,
        law,
        frames,
        mut state,
        control,
    } = setup_at(call);
    let (bytes, marks) = reply[31..end].split_at_mut(bits_end - 31);
    fill(bytes, 1, 5);
    fill(marks, 2, 3);
    let said = codec::receive(
        cp,
        law,
        frames,
        control,
        &mut state,
        &call[141..],
        bytes,
        marks,
    );
    put_left(said, state, reply);
    forms::heard_into(said.unwrap_or(Said::Nothing), &mut reply[23..]);
    end
}

// Fills a buffer: sample i is 1000 * i + 7.
fn fill_samples(samples: &mut [i32])
    requires { length samples.old ≤ 65536 }
{
    for (i, sample) in samples.iter_mut().enumerate() {
        *sample = (1000 * i + 7) as i32;
    }
}

// Puts samples, four bytes each in two's complement.
fn put_samples(samples: &[i32], reply: &mut [u8])
    requires { 4 * length samples.now ≤ length reply.old }
{
    for (i, sample) in samples.iter().enumerate() {
        reply[4 * i..4 * i + 4].copy_from_slice(&sample.to_le_bytes());
    }
}

// Answers a call for linear samples, whose buffer is filled first; nothing where it asks for too many.
fn answer_linear(call: &[u8], reply: &mut [u8; ROOM]) -> usize
    requires { 4 ≤ length call.now }
    ensures { result ≤ ROOM }
{
    let count = two(call[2], call[3]);
    if MOST_SAMPLES < count {
        return 0;
    }
    let mut buffer = [0; MOST_SAMPLES];
    let samples = &mut buffer[0..count];
    fill_samples(samples);
    put_refusal(pcm::linear(law_of(call[1]), &call[4..], samples), reply);
    put_samples(samples, &mut reply[2..]);
    2 + 4 * count
}

// Answers a call of any kind, and returns the reply's length; nothing where the call is too short or of no kind.
fn answer_call(call: &[u8], reply: &mut [u8; ROOM]) -> usize
    ensures { result ≤ ROOM }
{
    if call.len() < 4 {
        return 0;
    }
    match call[0] {
        2 => answer_send(call, reply),
        3 => answer_receive(call, reply),
        4 => answer_linear(call, reply),
        _ => 0,
    }
}

// Answers call after call. The loop stands in each of these programs: over a closure it would still need the three buffers, and clauses on
// what the closure asks of the reply and how much of it is made.
fn main() {
    let mut bytes = [0; 8192];
    let mut reply = [0; ROOM];
    let mut text = [0; 16384];
    for _ in 0..u64::MAX {
        let Some(n) = read_bytes(&mut text, &mut bytes) else {
            return;
        };
        let made = answer_call(&bytes[0..n], &mut reply);
        if !write_bytes(&reply[0..made], &mut text) {
            return;
        }
    }
}
