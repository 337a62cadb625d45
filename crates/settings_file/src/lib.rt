// What the program does with a settings file: it makes one, lists it, puts a setting, goes back to one and shows one. What the entries
// refuse is said, and a file is changed by way of a temporary one.
#![tactic(auto)]

mod asked;
mod saving;
mod sentences;
mod table;

ghost use Rattle.std.specs.Prelude.{◌≡◌, take};

pub use asked::{Asked, Command, asked_in};
use console::{Ends, Failure};
use sentences::say_changed;
use standard::Record;
use words::Text;

// The most bytes that are read of a settings file and written to one; a file that keeps the rules has fewer.
const MOST_BYTES: usize = 131072;

// The first n bytes; all of them where there are no more.
fn front(bytes: &[u8], n: usize) -> &[u8]
    ensures { result.now ≡ take n bytes.now }
{
    &bytes[0..n.min(bytes.len())]
}

// What is changed for a junction: a CP is put as its setting, or its two settings are exchanged.
#[derive(Clone, Copy)]
enum Change {
    Put(Record),
    Back,
}

// A settings file: its name, and what the program reads, writes and says things on.
#[derive(Clone, Copy)]
struct NamedFile<'a> {
    e: Ends<'a>,
    name: &'a [u8],
}

impl NamedFile<'_> {
    // Makes the file with no junction, where there is none of this name, and says so.
    // `two` is handed on to `empty_file`, whose clauses have the flag.
    fn make(self, two: bool) -> Result<(), Failure> {
        self.is_missing()?;
        self.save(versions::empty_file(two))?;
        self.e.tell_name(b"@ made, with no junction", self.name);
        Ok(())
    }

    // Saves what the bytes of the file are changed to for a junction, and says what the change is. `back` is handed on to the sentence.
    fn keep(self, bytes: &[u8], changed: &[u8], junction: u16, back: bool) -> Result<(), Failure> {
        self.save(changed)?;
        let previous = settings::look_up(bytes, junction).ok();
        // A file that was written has a setting for the junction.
        if let Ok(current) = settings::look_up(changed, junction) {
            say_changed(self.e, junction, back, current, previous);
        }
        Ok(())
    }

    // Changes the file, which has these bytes, for a junction; says what that is refused for.
    fn change(self, bytes: &[u8], junction: u16, change: Change) -> Result<(), Failure> {
        let mut out = [0u8; MOST_BYTES];
        let (written, back) = match change {
            Change::Put(r) => (settings::put(bytes, junction, r, &mut out), false),
            Change::Back => (settings::go_back(bytes, junction, &mut out), true),
        };
        let length = written.map_err(|x| self.refuse_change(junction, x, back))?;
        self.keep(bytes, front(&out, length), junction, back)
    }

    // Shows the current setting of a junction of the file, which has these bytes, as a CP or in plain words.
    // `as_cp` is a word of the command: both ways need the record and its CP first, so a closure for each would be longer.
    fn show(self, bytes: &[u8], junction: u16, as_cp: bool) -> Result<(), Failure> {
        let r = settings::look_up(bytes, junction).map_err(|x| self.refuse(junction, x, false))?;
        let mut cp = [0u8; 122];
        // A setting of a file is no CP that is refused.
        let bit_count = cp::write_cp(r, &mut cp).unwrap_or(0);
        if as_cp {
            return self.e.write(front(&cp, bit_count.div_ceil(8)));
        }
        write_words(self.e, r, bit_count)
    }

    // Reads the file and does with its bytes what is to be done; says so where it cannot be read.
    fn with_bytes<F: FnOnce(&[u8]) -> Result<(), Failure>>(self, f: F) -> Result<(), Failure>
        requires { F.IsAlwaysCallable f }
    {
        let NamedFile { e, name } = self;
        // A buffer and a count: the program uses no heap.
        let mut bytes = [0u8; MOST_BYTES];
        let count = e.fill_from(name, &mut bytes).map_err(|_| e.fail(
            b"v91 settings FILE new makes a settings file",
            &[],
        ))?;
        f(&bytes[0..count])
    }
}

// Writes what a CP of so many bits says, in plain words.
// The pictures of `v91` are written so too, each by way of a buffer of its own size, which the function makes.
fn write_words(e: Ends<'_>, r: Record, bit_count: usize) -> Result<(), Failure> {
    let mut room = [0; 8192];
    let mut text = Text::new(&mut room);
    description::add_record(&mut text, r, bit_count);
    e.write(text.as_slice())
}

// Puts a setting for a junction of the settings file of this name; an error where it could not.
pub fn put(e: Ends<'_>, name: &[u8], junction: u16, r: Record) -> Result<(), Failure> {
    let file = NamedFile { e, name };
    file.with_bytes(|bytes| file.change(bytes, junction, Change::Put(r)))
}

// Does what is asked of the settings file of this name; an error where it could not.
pub fn run(e: Ends<'_>, name: &[u8], command: Command) -> Result<(), Failure> {
    let file = NamedFile { e, name };
    match command {
        Command::New { two } => file.make(two),
        Command::List => file.with_bytes(|bytes| file.list(bytes)),
        Command::Back(junction) => {
            file.with_bytes(|bytes| file.change(bytes, junction, Change::Back))
        }
        Command::Show { junction, as_cp } => {
            file.with_bytes(|bytes| file.show(bytes, junction, as_cp))
        }
    }
}
