// The junction settings file: put a setting, go back, look one up.
#![tactic(auto)]

ghost use Rattle.std.specs.Prelude.{◌≡◌, true, [], ◌∷◌, ◌+◌, ◌<◌, ◌≤◌, length, IfOk, IfSome};
ghost use Rattle.standard.specs.First.{first};
ghost use Rattle.standard.specs.Refusals.{outcome_answer};
ghost use Rattle.standard.specs.Settings.{put_file, is_file, file_broken};
ghost use Rattle.standard.specs.Calls.{written_length, written_out, put_call, put_refusal, put_length, put_out, back_call, back_refusal, back_length};
ghost use Rattle.standard.specs.Calls.{back_out, look_refusal, look_record};
ghost use Rattle.entries.specs.Entries.{LieInside, Few};
ghost use Rattle.laying.specs.Laying.{given};
ghost use Rattle.places.specs.Finding.{FoundIn};
ghost use Rattle.settings.specs.Putting.{cp_put_refusal, number_shown};

use places::{Found, cp_of, found_in};
use rewriting::{JunctionSettings, written};
use rules::{bit_count_of, is_file};
use standard::{Record, Refusal};
use versions::{version_for, version_two};

// What is found of a junction in a file that keeps the rules. Refusal 22.
fn found(file: &[u8], junction: u16) -> Result<Found<'_>, Refusal>
    ensures refusal { outcome_answer result ≡ first (file_broken file.now ∷ []) }
    ensures found { IfOk result (λ f. (is_file file.now ≡ true) × FoundIn file.entry junction f) }
{
    if !is_file(file) {
        return Err(Refusal::FileBroken);
    }
    Ok(found_in(file, usize::from(junction)))
}

// The CP of the current setting of the junction (0) or of its previous one (1), where there is one.
// A number and no kind: it is added to the place of the first, and so the definition `number_shown` has it.
fn setting<'a>(found: &Found<'a>, number: usize) -> Option<&'a [u8]>
    requires inside { LieInside found.now.entries }
    requires few { Few found.now.entries }
    requires numbers { (found.now.below ≤ found.now.entries.count) × (found.now.upto ≤ found.now.entries.count) × (number ≤ 1) }
    ensures shown { given result ≡ number_shown found.now number }
    ensures short { IfSome result (λ cp. length cp.now < 256) }
{
    let k = found.below + number;
    if found.upto <= k {
        return None;
    }
    Some(cp_of(&found.entries, k))
}

// Puts a CP that is not refused. Refusals 22, 24 and 17.
fn put_cp(file: &[u8], junction: u16, cp: &[u8], out: &mut [u8]) -> Result<usize, Refusal>
    requires { length cp.now < 256 }
    ensures refusal { outcome_answer result ≡ cp_put_refusal file.now junction cp.now (length out.old) }
    ensures length { IfOk result (λ n. n ≡ written_length (cp_put_refusal file.now junction cp.now (length out.old)) (put_file file.now junction cp.now)) }
    ensures written { out.new ≡ written_out (cp_put_refusal file.now junction cp.now (length out.old)) (put_file file.now junction cp.now) out.old }
{
    let found = found(file, junction)?;
    let replaced = setting(&found, 0);
    let many = usize::from(replaced.is_none()) + found.entries.junctions();
    if version_two().most < many {
        return Err(Refusal::TooManyJunctions);
    }
    let own = JunctionSettings {
        junction: usize::from(junction),
        current: cp,
        previous: replaced,
    };
    let form = version_for(found.version, many);
    written(&found.entries, found.below, found.upto, &own, form, out)
}

// The entry: puts a record's setting for a junction, and answers the length of the file written. The record's own refusals, 22, 24 and 17,
// the first that applies.
// The file, the junction and the buffer are parameters of their own, as v91_put and v91_go_back have them.
pub fn put(file: &[u8], junction: u16, r: Record, out: &mut [u8]) -> Result<usize, Refusal>
    ensures refusal { outcome_answer result ≡ put_refusal file.now (put_call junction r out.old) }
    ensures length { IfOk result (λ n. n ≡ put_length file.now (put_call junction r out.old)) }
    ensures written { out.new ≡ put_out file.now (put_call junction r out.old) }
{
    faults::record_fault(r)?;
    let mut bytes = [0u8; 122];
    let bit_count = cp::write_cp(r, &mut bytes)?;
    put_cp(file, junction, &bytes[..bit_count.div_ceil(8)], out)
}

// The entry: exchanges the two settings of a junction, and answers the length of the file written. Refusals 22, 23 and 17, the first that
// applies.
pub fn go_back(file: &[u8], junction: u16, out: &mut [u8]) -> Result<usize, Refusal>
    ensures refusal { outcome_answer result ≡ back_refusal file.now (back_call junction out.old) }
    ensures length { IfOk result (λ n. n ≡ back_length file.now (back_call junction out.old)) }
    ensures written { out.new ≡ back_out file.now (back_call junction out.old) }
{
    let found = found(file, junction)?;
    let current = setting(&found, 0);
    let previous = setting(&found, 1).ok_or(Refusal::SettingMissing)?;
    let own = JunctionSettings {
        junction: usize::from(junction),
        current: previous,
        previous: current,
    };
    written(
        &found.entries,
        found.below,
        found.upto,
        &own,
        found.version,
        out,
    )
}

// The entry: the record of a junction's current setting. Refusals 22 and 23, the first that applies.
pub fn look_up(file: &[u8], junction: u16) -> Result<Record, Refusal>
    ensures refusal { outcome_answer result ≡ look_refusal file.now junction }
    ensures read { IfOk result (λ r. r ≡ look_record file.now junction) }
{
    let found = found(file, junction)?;
    let current = setting(&found, 0).ok_or(Refusal::SettingMissing)?;
    cp::read_cp(current, bit_count_of(current.len()))
}
