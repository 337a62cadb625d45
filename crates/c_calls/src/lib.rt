// What the functions of the C interface have in common: a law from a flag, the lengths of a record and a line state, and the end of a call of
// frames.
#![tactic(auto)]

ghost use Rattle.std.specs.Prelude.{◌≡◌, cond, ◌^◌, ◌<◌, ◌≤◌, true, ◌||◌, ltb, length, IfOk, OnErr};
ghost use Rattle.standard.specs.Refusals.{shorter, outcome_answer};
ghost use Rattle.standard.specs.Calls.{over};
ghost use Rattle.codes.specs.Coded.{coded};
ghost use Rattle.forms.specs.RecordBytes.{record_length, record_bytes};
ghost use Rattle.states.specs.StateBytes.{state_length};
ghost use Rattle.forms.specs.HeardBytes.{heard_length, heard_bytes};
ghost use Rattle.c_calls.specs.Answered.{law_of, answered, state_left, then_short};

use forms::RECORD_BYTES;
use standard::{Law, LineState, Record, Refusal, Said};
use states::STATE_BYTES;

// The refusals 16 and 17, which the functions answer for a record, a line state, a plan or what is heard: numbers, as interop/v91.h has them.
pub const INPUT_TOO_SHORT: u32 = 16;

pub const OUTPUT_TOO_SHORT: u32 = 17;

// The law that the flag `a_law` names.
// A flag, as C hands it in. A `From<bool>` for Law could stand in `standard` alone, where a flag is no law.
pub fn law_of(a_law: bool) -> Law
    ensures { result ≡ law_of a_law }
{
    if a_law { Law::A } else { Law::Mu }
}

// Whether a record or a line state is lent in fewer bytes than it has.
pub fn lent_short(rec: usize, state: usize) -> bool
    ensures { result ≡ (ltb rec record_length || ltb state state_length) }
{
    rec < RECORD_BYTES || state < STATE_BYTES
}

// Ends a call of frames: answers its outcome, and puts the line state left into its bytes where it is accepted and has frames.
pub fn end_call<T: Drop>(
    outcome: Result<T, Refusal>,
    left: LineState,
    frames: usize,
    state: &mut [u8],
) -> u32
    requires { state_length ≤ length state.old }
    ensures { (result ≡ coded (outcome_answer outcome))
        × (state.new ≡ answered (outcome_answer outcome) (state_left frames left state.old) (λ n. state.old)) }
{
    if outcome.is_ok() && frames != 0 {
        states::state_into(left, state);
    }
    codes::code_of(outcome)
}

// Ends a call that answers a count: the count, or the refusal.
pub fn end_count(outcome: Result<usize, Refusal>) -> u32
    requires { IfOk outcome (λ n. n < 2 ^ 32) }
    ensures counted { IfOk outcome (λ n. result ≡ n) }
    ensures refused { OnErr outcome (result ≡ coded (outcome_answer outcome)) }
{
    match outcome {
        Ok(n) => n as u32,
        Err(_) => codes::code_of(outcome),
    }
}

// Ends a call that gives a record: puts it into its bytes, and answers 0, or the refusal, which 17 follows where the bytes are too few.
pub fn end_record(outcome: Result<Record, Refusal>, rec: &mut [u8]) -> u32
    ensures answer { result ≡ coded (then_short (shorter rec.old record_length) (outcome_answer outcome)) }
    ensures accepted { IfOk outcome (λ r. rec.new
        ≡ cond (shorter rec.old record_length) rec.old (over (record_bytes r) rec.old)) }
    ensures refused { OnErr outcome (rec.new ≡ rec.old) }
{
    let Ok(r) = outcome else {
        return codes::code_of(outcome);
    };
    if rec.len() < RECORD_BYTES {
        return OUTPUT_TOO_SHORT;
    }
    forms::record_into(r, rec);
    0
}

// The answer to a call of the receiver whose buffer `heard` is too short: the call's own refusal, or 17.
pub fn unheard(outcome: Result<(), Refusal>) -> u32
    ensures { result ≡ coded (then_short true (outcome_answer outcome)) }
{
    match outcome {
        Ok(()) => OUTPUT_TOO_SHORT,
        Err(_) => codes::code_of(outcome),
    }
}

// Puts what an accepted call says of a control sequence into its bytes; those of a refused call stay.
pub fn end_heard(outcome: Result<Said, Refusal>, heard: &mut [u8])
    requires { heard_length ≤ length heard.old }
    ensures accepted { IfOk outcome (λ said. heard.new ≡ over (heard_bytes said) heard.old) }
    ensures refused { OnErr outcome (heard.new ≡ heard.old) }
{
    if let Ok(said) = outcome {
        forms::heard_into(said, heard);
    }
}
