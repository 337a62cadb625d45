// V.91 7.2 and 7.5: a CP and E_s on the line, an octet for each bit, and the line state found from the octets at their end.
#![tactic(auto)]

ghost use Rattle.std.specs.Prelude.{◌≡◌, ◌+◌, ◌^◌, ◌<◌, ◌≤◌, ltb, length, IfOk};
ghost use Rattle.standard.specs.First.{first};
ghost use Rattle.standard.specs.Record.{top_index};
ghost use Rattle.standard.specs.Cp.{cp_length};
ghost use Rattle.standard.specs.Start.{cp_and_end, octets_for, left_by};
ghost use Rattle.standard.specs.Refusals.{outcome_answer, send_cp_tests};
ghost use Rattle.standard.specs.Calls.{cp_call, send_cp_refusal, send_cp_count, send_cp_octets, send_cp_left, find_refusal, find_left};

use standard::{Law, LineState, Record, Refusal};
pub use start_bits::FOUND_FROM;
use start_bits::{found_in, send_bits};

// E_s: twelve zero bits.
pub const END_BITS: usize = 12;

// Refusals 4, 9, 10, 25, 11, 12, 14, 18, 19 and 17, where `room` octets are lent.
fn cp_fault(r: Record, state: LineState, room: usize) -> Result<(), Refusal>
    ensures { outcome_answer result ≡ first (send_cp_tests r state (ltb room (length (cp_and_end r)))) }
{
    faults::record_fault(r)?;
    state_faults::state_fault(state)?;
    if room < layout::cp_length(constellation::largest_index(r) as usize) + END_BITS {
        return Err(Refusal::OutputTooShort);
    }
    Ok(())
}

// Sends the CP of a record whose largest index is g, and E_s.
fn send_record(r: Record, g: usize, law: Law, state: LineState, octets: &mut [u8]) -> LineState
    requires { (g ≡ top_index r) × (g ≤ 5) × (state.history < 2 ^ 23) × (length octets.old ≡ cp_length g + 12) }
    ensures { (result ≡ left_by state (cp_and_end r)) × (octets.new ≡ octets_for law state (cp_and_end r)) }
{
    let mut cp = [0u8; 122];
    layout::put_cp(&mut cp[..layout::byte_count(g)], r);
    send_bits(law, state, &cp, layout::cp_length(g), octets)
}

// The entry: sends the CP of a record and E_s from a line state on, leaves the line state after them, and answers the octet count. Refusals
// 4, 9, 10, 25, 11, 12, 14, 18, 19 and 17, the first that applies.
pub fn send_cp(
    r: Record,
    law: Law,
    state: &mut LineState,
    octets: &mut [u8],
) -> Result<usize, Refusal>
    ensures refusal { outcome_answer result ≡ send_cp_refusal state.old (cp_call r law octets.old) }
    ensures count { IfOk result (λ count. count ≡ send_cp_count state.old (cp_call r law octets.old)) }
    ensures left { state.new ≡ send_cp_left state.old (cp_call r law octets.old) }
    ensures octets { octets.new ≡ send_cp_octets state.old (cp_call r law octets.old) }
{
    cp_fault(r, *state, octets.len())?;
    let g = constellation::largest_index(r) as usize;
    let end = layout::cp_length(g) + END_BITS;
    *state = send_record(r, g, law, *state, &mut octets[..end]);
    Ok(end)
}

// The entry: finds the line state that a CP and E_s left from the last 24 of the octets. Refusal 16 where there are fewer.
pub fn find_state(octets: &[u8], state: &mut LineState) -> Result<(), Refusal>
    ensures refusal { outcome_answer result ≡ find_refusal octets.now }
    ensures left { state.new ≡ find_left state.old octets.now }
{
    let Some(last) = octets.last_chunk::<FOUND_FROM>() else {
        return Err(Refusal::InputTooShort);
    };
    *state = found_in(last, *state);
    Ok(())
}
