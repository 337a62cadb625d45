// The CP reader and the CP writer: V.91, Table 4.
#![tactic(auto)]

ghost use Rattle.std.specs.Prelude.{◌≡◌, ltb, IfOk};
ghost use Rattle.standard.specs.First.{first};
ghost use Rattle.standard.specs.Record.{top_index};
ghost use Rattle.standard.specs.Cp.{cp_byte_count};
ghost use Rattle.standard.specs.Refusals.{outcome_answer, write_tests};
ghost use Rattle.standard.specs.Calls.{read_call, read_refusal, read_record, write_call, write_refusal, write_bit_count, write_bytes};

use layout::{byte_count, cp_length, put_cp, record_in};
use standard::{Record, Refusal};

// The entry: reads a CP of so many bits. Refusals 1 to 10, 25 and 11, the first that applies.
// A count beside the bytes: it counts bits, which no slice does, and v91_read_cp hands it in.
pub fn read_cp(cp: &[u8], bit_count: usize) -> Result<Record, Refusal>
    ensures refusal { outcome_answer result ≡ read_refusal (read_call cp.now bit_count) }
    ensures read { IfOk result (λ r. r ≡ read_record (read_call cp.now bit_count)) }
{
    cp_faults::shape_fault(cp, bit_count)?;
    let r = record_in(cp);
    cp_faults::content_fault(cp, bit_count, r)?;
    Ok(r)
}

// Refusals 4, 9, 10, 25, 11, 12 and 17, where `room` bytes are lent.
fn write_fault(r: Record, room: usize) -> Result<(), Refusal>
    ensures { outcome_answer result ≡ first (write_tests r (ltb room (cp_byte_count (top_index r)))) }
{
    faults::record_fault(r)?;
    if room < byte_count(constellation::largest_index(r) as usize) {
        return Err(Refusal::OutputTooShort);
    }
    Ok(())
}

// The entry: writes the CP of a record, and answers its bit count. Refusals 4, 9, 10, 25, 11, 12 and 17, the first that applies.
pub fn write_cp(r: Record, cp: &mut [u8]) -> Result<usize, Refusal>
    ensures refusal { outcome_answer result ≡ write_refusal (write_call r cp.old) }
    ensures count { IfOk result (λ count. count ≡ write_bit_count (write_call r cp.old)) }
    ensures bytes { cp.new ≡ write_bytes (write_call r cp.old) }
{
    write_fault(r, cp.len())?;
    let g = constellation::largest_index(r) as usize;
    put_cp(&mut cp[..byte_count(g)], r);
    Ok(cp_length(g))
}
