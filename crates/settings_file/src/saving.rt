// A settings file written by way of a temporary one: this is written whole, synced and closed, and takes the other's name at the end. Where
// any of that fails the settings file is as it was.
ghost use Rattle.std.specs.Prelude.{◌≤◌, length};

use crate::NamedFile;
use console::{Ends, Failure, Sink, SystemError};
use std::fs::File;

// The bytes of the longest name of a temporary file and more: the system takes 4,095.
const NAME_BYTES: usize = 4160;

// Puts the name of a settings file with .tmp behind it into `text`, and returns its length; that of `text`, with which no file can be
// opened, where there is no room.
fn temporary_of(name: &[u8], text: &mut [u8]) -> usize
    ensures { result ≤ length text.old }
{
    let start = name.len();
    if text.len() < start {
        return text.len();
    }
    if text.len() - start < 4 {
        return text.len();
    }
    text[0..start].copy_from_slice(name);
    text[start..start + 4].copy_from_slice(b".tmp");
    start + 4
}

// Writes bytes to an open file, has the system keep them, and closes the file.
fn write_closed(e: Ends<'_>, file: File, bytes: &[u8]) -> Result<(), SystemError> {
    e.send_out(Sink::Opened(&file), bytes)?;
    file.sync_all()?;
    Ok(())
}

impl NamedFile<'_> {
    // Removes the file where what was done with it failed, so that there is none afterwards.
    fn or_removed(self, done: Result<(), SystemError>) -> Result<(), SystemError> {
        done.inspect_err(|_| {
            // What is told is the error that came first.
            let _ = self.e.remove(self.name);
        })
    }

    // Writes the file; where that fails, there is none afterwards.
    fn write(self, bytes: &[u8]) -> Result<(), SystemError> {
        let file = self.e.open_overwrite(self.name)?;
        self.or_removed(write_closed(self.e, file, bytes))
    }

    // Writes the temporary file and gives it the name of the settings file; says so where that fails.
    fn save_as(self, name: &[u8], bytes: &[u8]) -> Result<(), Failure> {
        let fail = |template: &[u8], error| self.e.fail_system(error, template, self.name);
        self.write(bytes)
            .map_err(|error| fail(b"cannot write @: ", error))?;
        self.or_removed(self.e.rename(self.name, name))
            .map_err(|error| fail(b"cannot rename @: ", error))
    }

    // Says that the settings file is not changed.
    pub(crate) fn fail_as_it_was(self) -> Failure {
        self.e.fail_name(b"@ is as it was", self.name)
    }

    // Saves the settings file; says so where that fails.
    pub(crate) fn save(self, bytes: &[u8]) -> Result<(), Failure> {
        // A buffer and a count: the program uses no heap, and a Text would show the name's control characters as question marks.
        let mut text = [0u8; NAME_BYTES];
        let n = temporary_of(self.name, &mut text);
        let temporary = NamedFile {
            name: &text[0..n],
            ..self
        };
        temporary
            .save_as(self.name, bytes)
            .map_err(|_| self.fail_as_it_was())
    }

    // Says so where there is a file of this name, and where the system does not tell.
    pub(crate) fn is_missing(self) -> Result<(), Failure> {
        let NamedFile { e, name } = self;
        match e.open_read(name) {
            Ok(_) => Err(e.fail_name(b"@ is there already; it is as it was", name)),
            Err(SystemError::NoFile) => Ok(()),
            Err(error) => {
                e.fail_system(error, b"cannot open @: ", name);
                Err(self.fail_as_it_was())
            }
        }
    }
}
