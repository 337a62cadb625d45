// Runs the calls on standard input through the frame receiver with the control channel off, as they are and with the sign of one octet
// flipped, and writes an answer line for each. A line is lowercase hexadecimal; a record is 105 bytes, a law 1 (0 is µ-law), a state 21, a
// refusal 2 (its number, 0 for none, and its value).
// `07`, record, law, state, frame, interval, octets of N frames: answered by refusal, state, the bits buffer afterwards, 6 bytes for each
// frame, and the marks buffer, of the octets as they are; the same of those with the sign in that interval of that frame flipped; and how
// many data bits that changes, with their places, a byte each.
#![tactic(auto)]

ghost use Rattle.std.specs.Prelude.{◌≡◌, ◌+◌, ◌*◌, ◌≤◌, length};

use cases::{fill, law_of, put_refusal};
use constellation::k_of;
use text::{read_bytes, write_bytes};

// The room of a reply.
const ROOM: usize = 4096;

// The most frames of a call.
const MOST_FRAMES: usize = 256;

// Receives the frames of a call into buffers that are filled first, and puts the refusal, the state left and both buffers.
fn put_run(call: &[u8], frames: usize, reply: &mut [u8])
    requires { (130 ≤ length call.now) × (length reply.old ≡ 23 + 7 * frames) }
{
    let (left, buffers) = reply.split_at_mut(23);
    let (bytes, marks) = buffers.split_at_mut(6 * frames);
    let cp = forms::record_from(&call[1..]);
    let law = law_of(call[106]);
    let mut state = states::state_from(&call[107..]);
    fill(bytes, 1, 5);
    fill(marks, 2, 3);
    let said = codec::receive(
        cp,
        law,
        frames,
        false,
        &mut state,
        &call[130..],
        bytes,
        marks,
    );
    put_refusal(said, left);
    states::state_into(state, &mut left[2..]);
}

// Puts how many data bits change, and their places, as far as there is room.
fn put_changes(k: u32, i: u32, reply: &mut [u8]) -> usize
    requires { 1 ≤ length reply.old }
    ensures { result ≤ length reply.old }
{
    let count = flip::changed_count(k, i);
    reply[0] = (count % 256) as u8;
    let places = (0..flip::places_end(k, i)).filter(|p| flip::changes(k, i, *p));
    for (byte, place) in reply[1..].iter_mut().zip(places) {
        *byte = (place % 256) as u8;
    }
    1 + (count as usize).min(reply.len() - 1)
}

// The place in a call of the octet in an interval of a frame.
fn octet_at(frame: u8, interval: u8) -> usize
    ensures { result ≡ 130 + (6 * frame + interval) }
{
    130 + (6 * frame as usize + interval as usize)
}

// Answers a call, as its octets are and with the sign of one flipped; nothing where it is too short or of no kind, has too many frames or
// not the one with that octet.
fn answer_call(call: &mut [u8], reply: &mut [u8; ROOM]) -> usize
    ensures { result ≤ ROOM }
{
    if call.len() < 136 || call[0] != 7 {
        return 0;
    }
    let frames = (call.len() - 130) / 6;
    let interval = call[129];
    let hit = octet_at(call[128], interval);
    if MOST_FRAMES < frames || call.len() <= hit {
        return 0;
    }
    let run = 23 + 7 * frames;
    let end = 2 * run;
    let k = k_of(forms::record_from(&call[1..]));
    put_run(call, frames, &mut reply[0..run]);
    call[hit] ^= 128;
    put_run(call, frames, &mut reply[run..end]);
    end + put_changes(k as u32, interval as u32, &mut reply[end..])
}

// Answers call after call. The loop stands in each of these programs: over a closure it would still need the three buffers, and clauses on
// what the closure asks of the reply and how much of it is made.
fn main() {
    let mut bytes = [0; 2048];
    let mut reply = [0; ROOM];
    let mut text = [0; 8192];
    for _ in 0..u64::MAX {
        let Some(n) = read_bytes(&mut text[0..4096], &mut bytes) else {
            return;
        };
        let made = answer_call(&mut bytes[0..n], &mut reply);
        if !write_bytes(&reply[0..made], &mut text) {
            return;
        }
    }
}
