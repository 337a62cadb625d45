// A line state in bytes.
#![tactic(auto)]

ghost use Rattle.std.specs.Prelude.{◌≡◌, ◌≤◌, length};
ghost use Rattle.standard.specs.Lists.{list_from};
ghost use Rattle.standard.specs.Calls.{over};
ghost use Rattle.states.specs.StateBytes.{state_length, state_bytes, line_bytes, sequence_byte, state_at};

use standard::LineState;

// The bytes of a line state.
pub const STATE_BYTES: usize = 21;

// The bytes of its history and last sign, which stand first.
const LINE_BYTES: usize = 5;

// The sequence's bits, from byte 8 on.
// `forms` copies six bytes in the same way: one function for both would need a crate below them and be no shorter.
fn sequence_at(bytes: &[u8]) -> [u8; 12]
    requires { state_length ≤ length bytes.now }
    ensures { result ≡ list_from (sequence_byte bytes.now) 0 12 }
{
    let mut sequence = [0; 12];
    sequence.copy_from_slice(&bytes[8..20]);
    sequence
}

// The line state in the first 21 bytes.
// Bytes are a slice with a clause, here and below: C lends slices of any length, and an array at the front of one would be an Option.
pub fn state_from(bytes: &[u8]) -> LineState
    requires { state_length ≤ length bytes.now }
    ensures { result ≡ state_at bytes.now }
{
    LineState {
        history: bits::field_at(bytes, 0, 32) as u32,
        sign: bytes[4] != 0,
        doubtful: bytes[5],
        place: bytes[6],
        done: bytes[7],
        sequence: sequence_at(bytes),
        lost: bytes[20] != 0,
    }
}

// The bytes of a line state.
fn bytes_of(s: LineState) -> [u8; STATE_BYTES]
    ensures { result ≡ state_bytes s }
{
    let mut bytes = [0; STATE_BYTES];
    bytes[..4].copy_from_slice(&s.history.to_le_bytes());
    bytes[4] = s.sign as u8;
    bytes[5] = s.doubtful;
    bytes[6] = s.place;
    bytes[7] = s.done;
    bytes[8..20].copy_from_slice(&s.sequence);
    bytes[20] = s.lost as u8;
    bytes
}

// Puts a line state into the first 21 bytes; the others stay.
pub fn state_into(s: LineState, bytes: &mut [u8])
    requires { state_length ≤ length bytes.old }
    ensures { bytes.new ≡ over (state_bytes s) bytes.old }
{
    bytes[..STATE_BYTES].copy_from_slice(&bytes_of(s));
}

// Puts the history and the last sign of a line state into the first 5 bytes; the others stay.
pub fn line_into(s: LineState, bytes: &mut [u8])
    requires { state_length ≤ length bytes.old }
    ensures { bytes.new ≡ over (line_bytes s) bytes.old }
{
    bytes[..LINE_BYTES].copy_from_slice(&bytes_of(s)[..LINE_BYTES]);
}
