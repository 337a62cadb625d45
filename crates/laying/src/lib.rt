// Numbers and entries of a settings file laid into a buffer, one behind the other.
#![tactic(auto)]

ghost use Rattle.std.specs.Prelude.{◌≡◌, [], ◌∷◌, ◌+◌, ◌<◌, ◌≤◌, length, get_or, IfSome};
ghost use Rattle.std.proofs.Math.Option.{some};
ghost use Rattle.standard.specs.Settings.{little, entry_at, entry};
ghost use Rattle.entries.specs.Entries.{LieInside, listed, sizes};
ghost use Rattle.laying.specs.Laying.{laid, given, Room, Writes};

use entries::{Entries, next_at};

// Writes a number in w bytes.
// `to_le_bytes` gives eight bytes, and here w is bounded by the buffer alone.
pub fn put_number(out: &mut [u8], to: usize, v: usize, w: usize)
    requires { to + w ≤ length out.old }
    ensures { out.new ≡ laid out.old to (little w v) }
{
    let mut rest = v;
    for i in 0..w {
        out[to + i] = (rest % 256) as u8;
        rest /= 256;
    }
}

// Copies bytes, one after the other: `copy_from_slice` becomes a call of `memmove` where the length is known when it runs, and the archive
// for C is to need no function from outside but `memset`.
fn copy_bytes(out: &mut [u8], to: usize, bytes: &[u8])
    requires { to + length bytes.now ≤ length out.old }
    ensures { out.new ≡ laid out.old to bytes.now }
{
    for (i, byte) in bytes.iter().enumerate() {
        out[to + i] = *byte;
    }
}

// Where the next entry goes, and where the one before it starts.
#[derive(Clone, Copy)]
pub struct Spot {
    pub to: usize,
    pub before: usize,
}

// Lays entries one behind the other into a buffer, each with a start of so many bytes.
#[derive(Drop)]
pub struct Writer<'a> {
    pub out: &'a mut [u8],
    pub start: usize,
    pub spot: Spot,
}

impl Writer<'_> {
    // Writes an entry. `kind` is the byte of the file, 0 or 1: an enum would be turned into it here and used nowhere else.
    pub fn put_entry(&mut self, junction: usize, kind: u8, cp: &[u8])
        requires room { self.old.spot.to + (4 + length cp.now + self.old.start) ≤ length self.old.out.now }
        requires short { length cp.now < 256 }
        ensures same_buffer { self.new.out.ghost_name ≡ self.old.out.ghost_name }
        ensures lays { Writes self.old (entry kind junction (some cp.now)) self.new }
    {
        let len = cp.len();
        let to = self.spot.to;
        put_number(self.out, to, junction, 2);
        put_number(self.out, to + 2, usize::from(kind), 1);
        put_number(self.out, to + 3, len, 1);
        copy_bytes(self.out, to + 4, cp);
        put_number(self.out, to + 4 + len, self.spot.before, self.start);
        self.spot = Spot {
            to: to + 4 + len + self.start,
            before: to,
        };
    }

    // Writes the entry of a previous setting, where there is one.
    pub fn put_previous(&mut self, junction: usize, cp: Option<&[u8]>)
        requires room { Room self.old (entry 1 junction (given cp)) }
        requires short { IfSome cp (λ s. length s.now < 256) }
        ensures same_buffer { self.new.out.ghost_name ≡ self.old.out.ghost_name }
        ensures lays { Writes self.old (entry 1 junction (given cp.entry)) self.new }
    {
        if let Some(cp) = cp {
            self.put_entry(junction, 1, cp);
        }
    }

    // Copies the entry at a place of a file.
    fn copy_entry(&mut self, file: &[u8], at: usize)
        requires there { at + 4 + get_or file.now (at + 3) 0 ≤ length file.now }
        requires room { self.old.spot.to + (4 + get_or file.now (at + 3) 0) + self.old.start ≤ length self.old.out.now }
        ensures same_buffer { self.new.out.ghost_name ≡ self.old.out.ghost_name }
        ensures lays { Writes self.old (entry_at file.now at ∷ []) self.new }
    {
        let len = 4 + usize::from(file[at + 3]);
        let to = self.spot.to;
        copy_bytes(self.out, to, &file[at..at + len]);
        put_number(self.out, to + len, self.spot.before, self.start);
        self.spot = Spot {
            to: to + len + self.start,
            before: to,
        };
    }

    // Copies entries of a file.
    pub fn copy_entries(&mut self, entries: &Entries<'_>)
        requires inside { LieInside entries.now }
        requires room { Room self.old (listed entries.now) }
        ensures same_buffer { self.new.out.ghost_name ≡ self.old.out.ghost_name }
        ensures lays { Writes self.old (listed entries.now) self.new }
    {
        let mut at = entries.from;
        for _ in 0..entries.count {
            self.copy_entry(entries.file, at);
            at = next_at(entries.file, at, entries.start);
        }
    }
}
