// The entries of a settings file one after another, for a list of them.
#![tactic(auto)]

ghost use Rattle.std.specs.Prelude.{◌≡◌, ◌+◌, ◌≤◌, length, get_or, is_some, IfSome};
ghost use Rattle.standard.specs.Settings.{version_in};
ghost use Rattle.listing.specs.Reading.{entry_there, Reads};

use entries::number_at;
use rules::bit_count_of;
use standard::Record;
use versions::version_in;

// The entry at a place of a file: its junction, whether it is a previous setting, its record and the place after it.
#[derive(Clone, Copy)]
pub struct EntryRead {
    pub junction: u16,
    pub previous: bool,
    pub record: Record,
    pub next: usize,
}

// The record of a CP that the reader refuses.
const NO_RECORD: Record = Record {
    granted: false,
    drn: 0,
    acknowledge: false,
    index: [0; 6],
    mask: [0; 12],
};

// Whether an entry at this place ends before the trailer.
fn entry_there(s: &[u8], at: usize) -> bool
    ensures { result ≡ entry_there s.now at }
{
    let v = version_in(s);
    let tail = v.count + v.start + 1;
    if s.len() < tail {
        return false;
    }
    let end = s.len() - tail;
    if end < at {
        return false;
    }
    if end - at < 4 {
        return false;
    }
    4 + usize::from(s[at + 3]) + v.start <= end - at
}

// Reads an entry that is there.
fn read_entry(file: &[u8], at: usize) -> EntryRead
    requires { at + 4 + get_or file.now (at + 3) 0 + (version_in file.now).start ≤ length file.now }
    ensures { Reads file.now at result }
{
    let v = version_in(file);
    let from = at + 4;
    let to = from + usize::from(file[at + 3]);
    let read = cp::read_cp(&file[from..to], bit_count_of(to - from));
    EntryRead {
        junction: number_at(file, at, 2) as u16,
        previous: file[at + 2] != 0,
        record: read.unwrap_or(NO_RECORD),
        next: to + v.start,
    }
}

// The entry at a place of a file, for a list of them; none where none ends before the trailer.
#[tactic(auto, using(crate::proofs::Reading::there_room))]
pub fn entry_at(file: &[u8], at: usize) -> Option<EntryRead>
    ensures there { is_some result ≡ entry_there file.now at }
    ensures read { IfSome result (Reads file.now at) }
{
    if !entry_there(file, at) {
        return None;
    }
    Some(read_entry(file, at))
}
