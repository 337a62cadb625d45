// The CP in the C interface: what v91_write_cp, v91_read_cp, v91_send_cp and v91_find_state do.
#![tactic(auto)]

ghost use Rattle.std.specs.Prelude.{◌≡◌};
ghost use Rattle.cp_c.specs.Interface.{v91_read_cp, v91_write_cp, v91_send_cp, v91_find_state};

use c_calls::{INPUT_TOO_SHORT, end_count, end_record, law_of, lent_short};
use forms::RECORD_BYTES;
use states::STATE_BYTES;

// Writes a record's CP, and answers its bit count.
pub fn write_cp(rec: &[u8], cp: &mut [u8]) -> u32
    ensures { v91_write_cp rec.now cp.old ≡ record { answer = result; cp = cp.new } }
{
    if rec.len() < RECORD_BYTES {
        return INPUT_TOO_SHORT;
    }
    end_count(cp::write_cp(forms::record_from(rec), cp))
}

// Reads a CP of `bit_count` bits into a record.
pub fn read_cp(cp: &[u8], bit_count: usize, rec: &mut [u8]) -> u32
    ensures { v91_read_cp cp.now bit_count rec.old ≡ record { answer = result; rec = rec.new } }
{
    end_record(cp::read_cp(cp, bit_count), rec)
}

// Sends a record's CP and E_s as octets, from the line state and to the one left, and answers how many octets they have.
pub fn send_cp(rec: &[u8], a_law: bool, octets: &mut [u8], state: &mut [u8]) -> u32
    ensures { v91_send_cp rec.now a_law octets.old state.old
        ≡ record { answer = result; octets = octets.new; state = state.new } }
{
    if lent_short(rec.len(), state.len()) {
        return INPUT_TOO_SHORT;
    }
    let r = forms::record_from(rec);
    let mut line = states::state_from(state);
    let sent = start::send_cp(r, law_of(a_law), &mut line, octets);
    if sent.is_ok() {
        states::line_into(line, state);
    }
    end_count(sent)
}

// Finds the line state that a CP and E_s left from the last 24 of their octets.
pub fn find_state(octets: &[u8], state: &mut [u8]) -> u32
    ensures { v91_find_state octets.now state.old ≡ record { answer = result; state = state.new } }
{
    if state.len() < STATE_BYTES {
        return INPUT_TOO_SHORT;
    }
    let mut line = states::state_from(state);
    let found = start::find_state(octets, &mut line);
    if found.is_ok() {
        states::line_into(line, state);
    }
    codes::code_of(found)
}
