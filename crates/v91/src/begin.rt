// The line state in which sender and receiver begin, and the command start: a CP and E_s before the data.
ghost use Rattle.std.specs.Prelude.{◌≤◌};

use crate::asked::law_at;
use crate::cp_file::load_cp;
use console::{Ends, Failure};
use standard::{Law, LineState, Record};
use start::{END_BITS, FOUND_FROM};
use streams::{cold_state, fresh_state};

// The octets of the longest CP and E_s.
const MOST_OCTETS: usize = 984;

// The octets of a CP of so many bits, which are 972 at most, and E_s.
fn octets_for(bit_count: usize) -> usize
    ensures { result ≤ 984 }
{
    bit_count.min(MOST_OCTETS - END_BITS) + END_BITS
}

// Sends the CP file that word 1 names, and E_s, in the law that word 2 names.
pub(crate) fn start(e: Ends<'_>, words: &[u8]) -> Result<(), Failure> {
    let law = law_at(e, words, 2)?;
    let cp = load_cp(e, words)?;
    let mut octets = [0u8; MOST_OCTETS];
    // A CP that could be read is not refused.
    let _ = start::send_cp(cp.record, law, &mut fresh_state(), &mut octets);
    let count = octets_for(cp.bit_count);
    e.write(&octets[0..count])?;
    e.tell(
        b"# octets sent: # of CP and 12 of E_s",
        &[count as u64, cp.bit_count as u64],
    );
    Ok(())
}

// The line state in which a sender begins: the fresh one, or with `start` the one that its CP and E_s leave.
pub(crate) fn sender_state(r: Record, law: Law, start: bool) -> LineState {
    let mut state = fresh_state();
    if start {
        let mut octets = [0u8; MOST_OCTETS];
        // A CP that could be read is not refused.
        let _ = start::send_cp(r, law, &mut state, &mut octets);
    }
    state
}

// The line state in which a receiver begins that is told no more.
// `cold` and `start` are words of the command, here and below: a closure for each would be longer than the two states.
fn told_state(cold: bool) -> LineState {
    if cold { cold_state() } else { fresh_state() }
}

// The line state found from the octets of a CP and E_s; says so. Where an octet that it is found from has another Ucode, the line has
// altered some, and the receiver begins as a cold one.
// `law` and `cold` are handed on from `receiver_state` as they are asked for: a struct of two would be made and taken apart once.
fn found_state(e: Ends<'_>, law: Law, cold: bool, octets: &[u8]) -> LineState {
    let last = octets.last_chunk::<FOUND_FROM>();
    let sure = last.is_some_and(|last| last.iter().all(|octet| pcm::ucode_of(law, *octet) == 66));
    e.tell(
        if sure {
            b"line state found from the last 24 of # octets of CP and E_s"
        } else {
            b"the last 24 of # octets of CP and E_s are not all of Ucode 66, so the first 24 bits are doubtful"
        },
        &[octets.len() as u64],
    );
    let mut state = told_state(cold | !sure);
    // A CP and E_s are never too short for it.
    let _ = start::find_state(octets, &mut state);
    state
}

// Reads the octets of a CP and E_s, as many as there is room for, and finds the line state; says so where there are too few.
fn read_start(e: Ends<'_>, law: Law, cold: bool, octets: &mut [u8]) -> Result<LineState, Failure> {
    let count = e.fill(e.input, octets).map_err(|error| e.fail_system(
        error,
        b"cannot read standard input: ",
        b"",
    ))?;
    if count < octets.len() {
        return Err(e.fail(
            b"# octet~ received, too few for CP and E_s, which have #",
            &[count as u64, octets.len() as u64],
        ));
    }
    Ok(found_state(e, law, cold, octets))
}

// The line state in which a receiver begins: the fresh or the cold one, or with `start` the one found from the octets before the data, those
// of a CP of so many bits and E_s.
pub(crate) fn receiver_state(
    e: Ends<'_>,
    bit_count: usize,
    law: Law,
    start: bool,
    cold: bool,
) -> Result<LineState, Failure> {
    if !start {
        return Ok(told_state(cold));
    }
    let mut octets = [0u8; MOST_OCTETS];
    read_start(e, law, cold, &mut octets[0..octets_for(bit_count)])
}
