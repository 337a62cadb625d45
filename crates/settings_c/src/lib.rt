// The settings file in the C interface: what v91_put, v91_go_back and v91_look_up do.
#![tactic(auto)]

ghost use Rattle.std.specs.Prelude.{◌≡◌};
ghost use Rattle.settings_c.specs.Interface.{v91_put, v91_go_back, v91_look_up};

use c_calls::{INPUT_TOO_SHORT, end_count, end_record};
use forms::RECORD_BYTES;

// Puts a record's setting for a junction: writes the file afresh into `out`, and answers its length.
pub fn put(file: &[u8], junction: u16, rec: &[u8], out: &mut [u8]) -> u32
    ensures { v91_put file.now junction rec.now out.old
        ≡ record { answer = result; out = out.new } }
{
    if rec.len() < RECORD_BYTES {
        return INPUT_TOO_SHORT;
    }
    let r = forms::record_from(rec);
    end_count(settings::put(file, junction, r, out))
}

// Exchanges the two settings of a junction: writes the file afresh into `out`, and answers its length.
pub fn go_back(file: &[u8], junction: u16, out: &mut [u8]) -> u32
    ensures { v91_go_back file.now junction out.old ≡ record { answer = result; out = out.new } }
{
    end_count(settings::go_back(file, junction, out))
}

// Looks up the record of a junction's current setting.
pub fn look_up(file: &[u8], junction: u16, rec: &mut [u8]) -> u32
    ensures { v91_look_up file.now junction rec.old ≡ record { answer = result; rec = rec.new } }
{
    end_record(settings::look_up(file, junction), rec)
}
