// What a command reads, and the files that it opens, renames and removes.
ghost use Rattle.std.specs.Prelude.{◌≡◌, ◌≤◌, length, IfOk};
ghost use Rattle.std.specs.Io.{ReadsAtMost};

use crate::{Ends, Failure, Source, SystemError};
use std::fs;
use std::fs::File;
use std::io::{Error, Read};

impl Ends<'_> {
    // Reads once into a buffer, and returns how many bytes came, none at the input's end.
    pub(crate) fn read_once(self, from: Source<'_>, buffer: &mut [u8]) -> Result<usize, Error>
        ensures { ReadsAtMost result buffer.new }
    {
        match from {
            Source::Standard => self.rt.stdin().read(buffer),
            Source::Opened(file) => {
                let mut input = file;
                input.read(buffer)
            }
        }
    }

    // Reads into a buffer until it is full or the input ends, and returns how many bytes came.
    pub fn fill(self, from: Source<'_>, buffer: &mut [u8]) -> Result<usize, SystemError>
        ensures { IfOk result (λ count. count ≤ length buffer.new) }
    {
        let mut at = 0;
        // A turn goes on by what a read gives, so no range counts it.
        while at < buffer.len() {
            let count = self.read_once(from, &mut buffer[at..])?;
            if count == 0 {
                return Ok(at);
            }
            at += count;
        }
        Ok(at)
    }

    // Opens a file for reading.
    pub fn open_read(self, name: &[u8]) -> Result<File, SystemError> {
        let name = str::from_utf8(name)?;
        Ok(File::open(&self.rt, name)?)
    }

    // Opens a file for writing, makes it where there is none and empties it.
    pub fn open_overwrite(self, name: &[u8]) -> Result<File, SystemError> {
        let name = str::from_utf8(name)?;
        Ok(File::create(&self.rt, name)?)
    }

    // Renames a file.
    pub fn rename(self, from: &[u8], to: &[u8]) -> Result<(), SystemError> {
        let from = str::from_utf8(from)?;
        let to = str::from_utf8(to)?;
        fs::rename(&self.rt, from, to)?;
        Ok(())
    }

    // Removes a file.
    pub fn remove(self, name: &[u8]) -> Result<(), SystemError> {
        let name = str::from_utf8(name)?;
        fs::remove_file(&self.rt, name)?;
        Ok(())
    }

    // Fills a buffer from a file, and returns how many bytes came; says so where it cannot be read.
    pub fn fill_from(self, name: &[u8], buffer: &mut [u8]) -> Result<usize, Failure>
        ensures { IfOk result (λ count. count ≤ length buffer.new) }
    {
        let file = self
            .open_read(name)
            .map_err(|error| self.fail_system(error, b"cannot open @: ", name))?;
        self.fill(Source::Opened(&file), buffer)
            .map_err(|error| self.fail_system(error, b"cannot read @: ", name))
    }
}
