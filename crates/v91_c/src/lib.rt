// The C interface: interop/v91.h declares these functions. What those of frames, of the CP and of the settings file do is in crates of
// their own.
#![tactic(auto)]

ghost use Rattle.std.specs.Prelude.{◌≡◌};
ghost use Rattle.standard.specs.Calls.{linear_call, linear_refusal, linear_samples};
ghost use Rattle.codes.specs.Coded.{coded};
ghost use Rattle.c_calls.specs.Answered.{law_of};
ghost use Rattle.frames_c.specs.Interface.{v91_send, v91_receive};
ghost use Rattle.cp_c.specs.Interface.{v91_read_cp, v91_write_cp, v91_send_cp, v91_find_state};
ghost use Rattle.settings_c.specs.Interface.{v91_put, v91_go_back, v91_look_up};
ghost use Rattle.v91_c.specs.Interface.{v91_send_dil, v91_plan};

use c_calls::{OUTPUT_TOO_SHORT, law_of};
use dil::DIL_OCTETS;
use forms::PLAN_BYTES;

// Each octet's signed linear value into `samples`.
#[unsafe(no_mangle)]
pub extern "C" fn v91_linear(a_law: bool, octets: &[u8], samples: &mut [i32]) -> u32
    ensures { (result ≡ coded (linear_refusal (linear_call (law_of a_law) octets.now samples.old)))
        × (samples.new ≡ linear_samples (linear_call (law_of a_law) octets.now samples.old)) }
{
    codes::code_of(pcm::linear(law_of(a_law), octets, samples))
}

// Writes a record's CP, and answers its bit count.
#[unsafe(no_mangle)]
pub extern "C" fn v91_write_cp(rec: &[u8], cp: &mut [u8]) -> u32
    ensures { v91_write_cp rec.now cp.old ≡ record { answer = result; cp = cp.new } }
{
    cp_c::write_cp(rec, cp)
}

// Reads a CP of `bit_count` bits into a record.
#[unsafe(no_mangle)]
pub extern "C" fn v91_read_cp(cp: &[u8], bit_count: usize, rec: &mut [u8]) -> u32
    ensures { v91_read_cp cp.now bit_count rec.old ≡ record { answer = result; rec = rec.new } }
{
    cp_c::read_cp(cp, bit_count, rec)
}

// Sends frames of data bits as octets, from the line state and to the one left. `sequence` is for a control sequence that starts in the
// call.
// The parameters of each function are those that C hands in.
#[unsafe(no_mangle)]
pub extern "C" fn v91_send(
    rec: &[u8],
    a_law: bool,
    frames: usize,
    control: bool,
    sequence: u64,
    bits: &[u8],
    octets: &mut [u8],
    state: &mut [u8],
) -> u32
    ensures { v91_send rec.now a_law frames control sequence bits.now octets.old
        state.old
        ≡ record { answer = result; octets = octets.new; state = state.new } }
{
    frames_c::send(rec, a_law, frames, control, sequence, bits, octets, state)
}

// Receives octets as data bits and a mark for each frame, from the line state and to the one left, and says what became of the control
// sequence that ends in the call.
#[unsafe(no_mangle)]
pub extern "C" fn v91_receive(
    rec: &[u8],
    a_law: bool,
    frames: usize,
    control: bool,
    octets: &[u8],
    bits: &mut [u8],
    marks: &mut [u8],
    heard: &mut [u8],
    state: &mut [u8],
) -> u32
    ensures { v91_receive rec.now a_law frames control octets.now bits.old marks.old
        heard.old state.old
        ≡ record {
          answer = result;
          bits = bits.new;
          marks = marks.new;
          heard = heard.new;
          state = state.new;
        } }
{
    frames_c::receive(
        rec, a_law, frames, control, octets, bits, marks, heard, state,
    )
}

// Writes the default DIL, and answers how many octets it has.
#[unsafe(no_mangle)]
pub extern "C" fn v91_send_dil(a_law: bool, octets: &mut [u8]) -> u32
    ensures { v91_send_dil a_law octets.old ≡ record { answer = result; octets = octets.new } }
{
    let sent = dil::send_dil(law_of(a_law), octets);
    match sent {
        Ok(()) => DIL_OCTETS as u32,
        Err(_) => codes::code_of(sent),
    }
}

// Sends a record's CP and E_s as octets, from the line state and to the one left, and answers how many octets they have.
#[unsafe(no_mangle)]
pub extern "C" fn v91_send_cp(rec: &[u8], a_law: bool, octets: &mut [u8], state: &mut [u8]) -> u32
    ensures { v91_send_cp rec.now a_law octets.old state.old
        ≡ record { answer = result; octets = octets.new; state = state.new } }
{
    cp_c::send_cp(rec, a_law, octets, state)
}

// Finds the line state that a CP and E_s left from the last 24 of their octets.
#[unsafe(no_mangle)]
pub extern "C" fn v91_find_state(octets: &[u8], state: &mut [u8]) -> u32
    ensures { v91_find_state octets.now state.old ≡ record { answer = result; state = state.new } }
{
    cp_c::find_state(octets, state)
}

// Plans a mask for a wanted rate: puts it and its sum of squares into the first 24 bytes.
#[unsafe(no_mangle)]
pub extern "C" fn v91_plan(k: u32, a_law: bool, spacing: u32, ceiling: u64, bytes: &mut [u8]) -> u32
    ensures { v91_plan k a_law spacing ceiling bytes.old ≡ record { answer = result; bytes = bytes.new } }
{
    let planned = plan::plan(k, law_of(a_law), spacing, ceiling);
    let Ok(mask) = planned else {
        return codes::code_of(planned);
    };
    if bytes.len() < PLAN_BYTES {
        return OUTPUT_TOO_SHORT;
    }
    forms::plan_into(mask, bytes);
    0
}

// Puts a record's setting for a junction: writes the file afresh into `out`, and answers its length.
#[unsafe(no_mangle)]
pub extern "C" fn v91_put(file: &[u8], junction: u16, rec: &[u8], out: &mut [u8]) -> u32
    ensures { v91_put file.now junction rec.now out.old
        ≡ record { answer = result; out = out.new } }
{
    settings_c::put(file, junction, rec, out)
}

// Exchanges the two settings of a junction: writes the file afresh into `out`, and answers its length.
#[unsafe(no_mangle)]
pub extern "C" fn v91_go_back(file: &[u8], junction: u16, out: &mut [u8]) -> u32
    ensures { v91_go_back file.now junction out.old ≡ record { answer = result; out = out.new } }
{
    settings_c::go_back(file, junction, out)
}

// Looks up the record of a junction's current setting.
#[unsafe(no_mangle)]
pub extern "C" fn v91_look_up(file: &[u8], junction: u16, rec: &mut [u8]) -> u32
    ensures { v91_look_up file.now junction rec.old ≡ record { answer = result; rec = rec.new } }
{
    settings_c::look_up(file, junction, rec)
}
