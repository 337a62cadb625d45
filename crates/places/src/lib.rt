// Where the settings of a junction stand in a settings file.
#![tactic(auto)]

ghost use Rattle.std.specs.Prelude.{◌≡◌, true, ◌<◌, ◌≤◌, length};
ghost use Rattle.standard.specs.Settings.{is_file};
ghost use Rattle.entries.specs.Entries.{LieInside};
ghost use Rattle.places.specs.Finding.{FoundIn, cp_number};

use entries::{Entries, entries_in};
use standard::Version;
use versions::version_in;

// What a call needs to know of a file: its version, its entries, and how many of them stand before those of a junction and up to their end.
// `below` and `upto` are two numbers of entries and no Range, as the definition `rewritten` takes them.
#[derive(Clone, Copy)]
pub struct Found<'a> {
    pub version: Version,
    pub entries: Entries<'a>,
    pub below: usize,
    pub upto: usize,
}

pub fn found_in(s: &[u8], j: usize) -> Found<'_>
    requires { (is_file s.now ≡ true) × (j < 65536) }
    ensures { FoundIn s.entry j result }
{
    let version = version_in(s);
    let entries = entries_in(s, version);
    Found {
        version,
        entries,
        below: entries.count_below(j),
        upto: entries.count_below(j + 1),
    }
}

// The CP of entry number k.
#[tactic(auto, using(crate::proofs::Opening::here_room))]
pub fn cp_of<'a>(entries: &Entries<'a>, k: usize) -> &'a [u8]
    requires inside { LieInside entries.now }
    requires start_bound { entries.now.start ≤ 4 }
    requires number { (k < entries.now.count) × (k < 65536) }
    ensures bytes { result.now ≡ cp_number entries.now k }
    ensures short { length result.now < 256 }
{
    let at = entries.place_after(k);
    let from = at + 4;
    let to = from + usize::from(entries.file[at + 3]);
    &entries.file[from..to]
}
