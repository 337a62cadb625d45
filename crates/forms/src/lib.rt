// What crosses an interface in bytes beside a line state: a record, a plan and what is said of a control sequence.
#![tactic(auto)]

ghost use Rattle.std.specs.Prelude.{◌≡◌, ◌≤◌, ◌++◌, length, drop};
ghost use Rattle.standard.specs.Lists.{list_from};
ghost use Rattle.standard.specs.Calls.{over};
ghost use Rattle.forms.specs.RecordBytes.{record_length, record_byte, record_bytes, index_at, half_at, record_at};
ghost use Rattle.forms.specs.PlanBytes.{plan_length, plan_bytes};
ghost use Rattle.forms.specs.HeardBytes.{said_kind, said_bits, heard_length, heard_bytes};

use standard::{Planned, Record, Said};

// The bytes of a record.
pub const RECORD_BYTES: usize = 105;

// The bytes of a plan.
pub const PLAN_BYTES: usize = 24;

// The bytes of what is said of a control sequence.
pub const HEARD_BYTES: usize = 8;

// The six indices, from byte 3 on.
// `states` copies twelve bytes in the same way: one function for both would need a crate below them and be no shorter.
fn indices_at(bytes: &[u8]) -> [u8; 6]
    requires { 9 ≤ length bytes.now }
    ensures { result ≡ list_from (index_at bytes.now) 0 6 }
{
    let mut index = [0; 6];
    index.copy_from_slice(&bytes[3..9]);
    index
}

// The twelve halves of the masks, from byte 9 on.
fn masks_at(bytes: &[u8]) -> [u64; 12]
    requires { record_length ≤ length bytes.now }
    ensures { result ≡ list_from (half_at bytes.now) 0 12 }
{
    let mut mask = [0; 12];
    for (h, half) in mask.iter_mut().enumerate() {
        *half = bits::word_at(bytes, 9 + 8 * h);
    }
    mask
}

// The record in the first 105 bytes.
// Bytes are a slice with a clause, here and below: C lends slices of any length, and an array at the front of one would be an Option.
pub fn record_from(bytes: &[u8]) -> Record
    requires { record_length ≤ length bytes.now }
    ensures { result ≡ record_at bytes.now }
{
    Record {
        granted: bytes[0] != 0,
        drn: bytes[1],
        acknowledge: bytes[2] != 0,
        index: indices_at(bytes),
        mask: masks_at(bytes),
    }
}

// Puts what stands before the masks into the first 9 bytes; the others stay.
fn head_into(r: Record, bytes: &mut [u8])
    requires { 9 ≤ length bytes.old }
    ensures { bytes.new ≡ list_from (record_byte r) 0 9 ++ drop 9 bytes.old }
{
    bytes[0] = r.granted as u8;
    bytes[1] = r.drn;
    bytes[2] = r.acknowledge as u8;
    bytes[3..9].copy_from_slice(&r.index);
}

// Puts a record into the first 105 bytes; the others stay.
pub fn record_into(r: Record, bytes: &mut [u8])
    requires { record_length ≤ length bytes.old }
    ensures { bytes.new ≡ over (record_bytes r) bytes.old }
{
    head_into(r, bytes);
    for (h, half) in r.mask.iter().enumerate() {
        bits::put_word(bytes, 9 + 8 * h, *half);
    }
}

// Puts the mask and its sum into the first 24 bytes; the others stay.
pub fn plan_into(p: Planned, bytes: &mut [u8])
    requires { plan_length ≤ length bytes.old }
    ensures { bytes.new ≡ over (plan_bytes p.mask p.sum) bytes.old }
{
    bits::put_word(bytes, 0, p.mask[0]);
    bits::put_word(bytes, 8, p.mask[1]);
    bits::put_word(bytes, 16, p.sum);
}

// What is said of a control sequence, as its kind and the bits of a sequence heard, 0 where none is.
// The kind is a number, as C has it: the definitions `said_kind` and `said_bits` give it and the bits.
fn told_as(said: Said) -> (u8, u64)
    ensures { (result.0 ≡ said_kind said) × (result.1 ≡ said_bits said) }
{
    match said {
        Said::Nothing => (0, 0),
        Said::Sequence(word) => (1, word),
        Said::FrameLost => (2, 0),
        Said::PatternWrong => (3, 0),
        Said::CrcWrong => (4, 0),
    }
}

// Puts what is said of a control sequence into the first 8 bytes; the others stay.
pub fn heard_into(said: Said, bytes: &mut [u8])
    requires { heard_length ≤ length bytes.old }
    ensures { bytes.new ≡ over (heard_bytes said) bytes.old }
{
    let (kind, bits) = told_as(said);
    bytes[0] = kind;
    bits::put_bytes(bytes, 1, 7, bits);
}
