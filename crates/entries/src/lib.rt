// The entries of a settings file in its bytes: numbers read, entries counted, their bytes added up.
#![tactic(auto)]

ghost use Rattle.std.specs.Prelude.{◌≡◌, ◌+◌, ◌*◌, ◌<◌, ◌≤◌, ◌^◌, length, get_or};
ghost use Rattle.standard.specs.Settings.{little_at, below, junctions, trailer};
ghost use Rattle.entries.specs.Entries.{LieInside, Few, entries_of, listed, place_after, sizes};

use standard::Version;

// The number in the w bytes from `at` on.
// `from_le_bytes` takes eight bytes, and here w is any number up to 4.
pub fn number_at(s: &[u8], at: usize, w: usize) -> usize
    requires w_in_bounds { at + w ≤ length s.now }
    requires w_bound { w ≤ 4 }
    ensures value { result ≡ little_at s.now at w }
    ensures upper_bound { result < 2 ^ (8 * w) }
{
    let mut value: usize = 0;
    for i in (0..w).rev() {
        value = value * 256 + usize::from(s[at + i]);
    }
    value
}

// The place after the entry at `at`, whose start has w bytes.
pub fn next_at(s: &[u8], at: usize, w: usize) -> usize
    requires { at + 4 + get_or s.now (at + 3) 0 + w ≤ length s.now }
    ensures { (result ≡ at + 4 + get_or s.now (at + 3) 0 + w) × (result ≤ at + 259 + w) }
{
    at + 4 + usize::from(s[at + 3]) + w
}

// Entries that lie end to end in a file: from which place on, how many, and how many bytes the start in each has.
// That they lie inside it and are few stays a `requires`: docs/TRACE.md names `count_below` and README.md this crate, so no type may ask it.
#[derive(Clone, Copy)]
pub struct Entries<'a> {
    pub file: &'a [u8],
    pub start: usize,
    pub from: usize,
    pub count: usize,
}

// The entries of a file of this version: as many as its trailer says, from place 0.
#[tactic(auto, using(crate::proofs::Inside::two_bytes))]
pub fn entries_in(file: &[u8], version: Version) -> Entries<'_>
    requires trailer { trailer version ≤ length file.now }
    requires count_bound { version.count ≤ 2 }
    ensures value { result ≡ entries_of version file.entry }
    ensures few { result.count < 65536 }
{
    let tail = version.count + version.start + 1;
    Entries {
        file,
        start: version.start,
        from: 0,
        count: number_at(file, file.len() - tail, version.count),
    }
}

// Each walk is a loop of its own: handed to one walk as a closure, what it adds would need a contract longer than the loop.
impl Entries<'_> {
    // How many have a junction below j.
    #[tactic(auto, using(crate::proofs::Sums::room))]
    pub fn count_below(&self, j: usize) -> usize
        requires inside { LieInside self.now }
        requires few { Few self.now }
        ensures value { result ≡ length (below j (listed self.now)) }
        ensures upper_bound { result ≤ self.now.count }
    {
        let mut at = self.from;
        let mut found = 0;
        for _ in 0..self.count {
            found += usize::from(number_at(self.file, at, 2) < j);
            at = next_at(self.file, at, self.start);
        }
        found
    }

    // How many are current ones: the junctions.
    #[tactic(auto, using(crate::proofs::Sums::room))]
    pub fn junctions(&self) -> usize
        requires inside { LieInside self.now }
        requires few { Few self.now }
        ensures value { result ≡ junctions (listed self.now) }
        ensures upper_bound { result ≤ self.now.count }
    {
        let mut at = self.from;
        let mut found = 0;
        for _ in 0..self.count {
            found += usize::from(self.file[at + 2] == 0);
            at = next_at(self.file, at, self.start);
        }
        found
    }

    // The bytes that they have with starts of w bytes.
    #[tactic(auto, using(crate::proofs::Sums::room))]
    pub fn size_of(&self, w: usize) -> usize
        requires inside { LieInside self.now }
        requires few { Few self.now }
        requires w_bound { w ≤ 4 }
        ensures value { result ≡ sizes w (listed self.now) }
        ensures upper_bound { result ≤ 263 * self.now.count }
    {
        let mut at = self.from;
        let mut found = 0;
        for _ in 0..self.count {
            let next = next_at(self.file, at, self.start);
            found += next - at - self.start + w;
            at = next;
        }
        found
    }

    // The place after the first k of them.
    #[tactic(auto, using(crate::proofs::Sums::front_inside))]
    pub fn place_after(&self, k: usize) -> usize
        requires inside { LieInside self.now }
        requires start_bound { self.now.start ≤ 4 }
        requires k_bound { (k ≤ self.now.count) × (k < 65536) }
        ensures value { result ≡ place_after self.now.start self.now.file.now k self.now.from }
        ensures upper_bound { result ≤ length self.now.file.now }
    {
        let front = Entries { count: k, ..*self };
        self.from + front.size_of(self.start)
    }
}
