// The rules of a settings file: its bytes are looked at in one walk.
#![tactic(auto)]

ghost use Rattle.std.specs.Prelude.{◌≡◌, false, ◌&&◌, ◌||◌, ◌+◌, ◌<◌, ◌≤◌, eqb, leb, length, get_or};
ghost use Rattle.standard.specs.Settings.{readable, is_file, bit_count_of};
ghost use Rattle.entries.specs.Entries.{Few};
ghost use Rattle.theorems_settings.specs.Walk.{placed, good_at, walk};

use entries::{Entries, entries_in, next_at, number_at};
use versions::version_in;

// Whether an entry lies before `end` and points to `before`.
fn placed_at(entries: &Entries<'_>, end: usize, at: usize, before: usize) -> bool
    requires { (end ≤ length entries.now.file.now) × (at ≤ end) × (entries.now.start ≤ 4) }
    ensures { result ≡ placed entries.now.start entries.now.file.now end at before }
{
    let s = entries.file;
    let w = entries.start;
    if end - at < 4 {
        return false;
    }
    let len = usize::from(s[at + 3]);
    if end - at < 4 + len + w {
        return false;
    }
    number_at(s, at + 4 + len, w) == before
}

// The bit count of a CP of n bytes.
pub fn bit_count_of(n: usize) -> usize
    requires { n < 256 }
    ensures value { result ≡ bit_count_of n }
    ensures upper_bound { result < 65536 }
{
    (289 + 136 * (n.saturating_sub(37) / 17) + 5) / 6 * 6
}

// Whether the reader accepts a CP, whose bit count follows from its bytes.
fn readable_cp(cp: &[u8]) -> bool
    requires { length cp.now < 256 }
    ensures { result ≡ readable cp.now }
{
    let n = bit_count_of(cp.len());
    cp.len() == n.div_ceil(8) && cp::read_cp(cp, n).is_ok()
}

// Whether an entry of this junction and kind may stand here: a current one whose junction is `bar` or more or, where the entry before it is
// a current one (`follow`), the previous one of that junction, which is `bar` - 1.
// `kind` is the byte of the file, which may be any: an enum of it would be made here and used nowhere else.
fn in_order(junction: usize, kind: u8, bar: usize, follow: bool) -> bool
    requires { junction < 65536 }
    ensures { result ≡ ((eqb kind 0 && leb bar junction) || ((eqb kind 1 && follow) && eqb (junction + 1) bar)) }
{
    (kind == 0 && bar <= junction) || (kind == 1 && follow && junction + 1 == bar)
}

// Whether the entry at a place is in order and its CP readable.
fn good_at(s: &[u8], at: usize, bar: usize, follow: bool) -> bool
    requires { at + 4 + get_or s.now (at + 3) 0 ≤ length s.now }
    ensures { result ≡ good_at s.now at bar follow }
{
    let from = at + 4;
    let to = from + usize::from(s[at + 3]);
    in_order(number_at(s, at, 2), s[at + 2], bar, follow) && readable_cp(&s[from..to])
}

// Whether the entries lie end to end from place 0 to `end`, the last from `last` on, and keep the rules with `most` junctions at most.
#[tactic(auto, using(crate::proofs::Walking::room))]
fn entries_good(entries: &Entries<'_>, end: usize, last: usize, most: usize) -> bool
    requires few { Few entries.now }
    requires end { end ≤ length entries.now.file.now }
    ensures { result ≡ walk entries.now.start entries.now.file.now end last most entries.now.count 0 0 0 false 0 }
{
    let s = entries.file;
    let mut at = 0;
    let mut before = 0;
    let mut bar = 0;
    let mut follow = false;
    let mut seen = 0;
    for _ in 0..entries.count {
        if !placed_at(entries, end, at, before) {
            return false;
        }
        if !good_at(s, at, bar, follow) {
            return false;
        }
        before = at;
        bar = number_at(s, at, 2) + 1;
        follow = s[at + 2] == 0;
        seen += usize::from(follow);
        at = next_at(s, at, entries.start);
    }
    at == end && before == last && seen <= most
}

// Whether the bytes are a settings file.
pub fn is_file(s: &[u8]) -> bool
    ensures { result ≡ is_file s.now }
{
    let n = s.len();
    let v = version_in(s);
    let tail = v.count + v.start + 1;
    if n < tail {
        return false;
    }
    if s[n - 1] != v.byte {
        return false;
    }
    let end = n - tail;
    let entries = entries_in(s, v);
    let last = number_at(s, n - (v.start + 1), v.start);
    entries_good(&entries, end, last, v.most)
}
