// What a command reads from, writes to and says things on, and what it says there.
ghost use Rattle.std.specs.Prelude.{◌≤◌, ◌↔◌, IsOk};
ghost use Rattle.parts.specs.Parts.{part_count};

use crate::SystemError;
use std::fs::File;
use std::io::{Error, IsTerminal, Print, Write};
use words::Text;

// What a command reads from: standard input, or a file that was opened for it.
#[derive(Clone, Copy)]
pub enum Source<'a> {
    Standard,
    Opened(&'a File),
}

// What a command writes to or says things on: standard output, standard error, or a file that was opened for it.
#[derive(Clone, Copy)]
pub enum Sink<'a> {
    Output,
    Said,
    Opened(&'a File),
}

// The system, what a command reads, writes and says things on, and whether it shows how far it is.
#[derive(Clone, Copy)]
pub struct Ends<'a> {
    pub rt: HostRuntime,
    pub input: Source<'a>,
    pub output: Sink<'a>,
    pub said: Sink<'a>,
    pub shows: bool,
}

// A command that was not done. It is said why: nothing else makes one than what says it.
#[derive(Clone, Copy)]
pub struct Failure {
    said: (),
}

// The standard streams; how far a command is it shows where standard error is a terminal.
pub fn standard_ends<'a>(rt: HostRuntime) -> Ends<'a> {
    Ends {
        rt,
        input: Source::Standard,
        output: Sink::Output,
        said: Sink::Said,
        shows: rt.stderr().is_terminal(),
    }
}

// Writes bytes to a file.
fn write_to(file: &File, bytes: &[u8]) -> Result<(), Error> {
    let mut output = file;
    Write::write_all(&mut output, bytes)
}

impl Ends<'_> {
    // Writes bytes; the system's error where they did not all go out.
    pub fn send_out(self, to: Sink<'_>, bytes: &[u8]) -> Result<(), SystemError> {
        match to {
            Sink::Output => Print::write_all(&self.rt.stdout(), bytes)?,
            Sink::Said => Print::write_all(&self.rt.stderr(), bytes)?,
            Sink::Opened(file) => write_to(file, bytes)?,
        }
        Ok(())
    }

    // Says a sentence: what a template says with numbers and a name.
    fn say(self, template: &[u8], values: &[u64], name: &[u8]) {
        let mut room = [0; 8192];
        let mut text = Text::new(&mut room);
        text.add_message(b"v91: ", values, name);
        text.add_message(template, values, name);
        text.add_message(b"\n", values, name);
        self.tell_text(text.as_slice());
    }

    // Writes bytes to the output; says so where they do not all go out.
    pub fn write(self, bytes: &[u8]) -> Result<(), Failure> {
        self.send_out(self.output, bytes).map_err(|error| self.fail_system(
            error,
            b"cannot write standard output: ",
            b"",
        ))
    }

    // Says a sentence with numbers.
    pub fn tell(self, template: &[u8], values: &[u64]) {
        self.say(template, values, b"");
    }

    // The same with a name and no number.
    pub fn tell_name(self, template: &[u8], name: &[u8]) {
        self.say(template, &[], name);
    }

    // Says a text, which has its newline.
    pub fn tell_text(self, text: &[u8]) {
        // Where that cannot be written there is nothing to say so on.
        let _ = self.send_out(self.said, text);
    }

    // Says a sentence with numbers about what cannot be done.
    pub fn fail(self, template: &[u8], values: &[u64]) -> Failure {
        self.say(template, values, b"");
        Failure { said: () }
    }

    // The same with a name and no number.
    pub fn fail_name(self, template: &[u8], name: &[u8]) -> Failure {
        self.say(template, &[], name);
        Failure { said: () }
    }

    // The same with numbers and a name.
    pub fn fail_values(self, template: &[u8], values: &[u64], name: &[u8]) -> Failure {
        self.say(template, values, name);
        Failure { said: () }
    }

    // Says what failed, and why: the system's error.
    pub fn fail_system(self, error: SystemError, template: &[u8], name: &[u8]) -> Failure {
        let mut room = [0; 8192];
        let mut text = Text::new(&mut room);
        text.add_name(b"v91: ", name);
        text.add_name(template, name);
        error.add_to(&mut text);
        text.add_name(b"\n", name);
        self.tell_text(text.as_slice());
        Failure { said: () }
    }

    // Whether a command has so many words; says so where it has not.
    pub fn has(self, words: &[u8], least: usize, most: usize) -> Result<(), Failure>
        ensures { IsOk result ↔ ((least ≤ part_count 0 words.now) × (part_count 0 words.now ≤ most)) }
    {
        let count = parts::part_count(words, 0);
        if (least <= count) & (count <= most) {
            return Ok(());
        }
        Err(self.fail(
            b"wrong number of words; v91 help says what each command takes",
            &[],
        ))
    }
}
