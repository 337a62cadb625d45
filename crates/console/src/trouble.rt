// What ends a stream before its input does.
ghost use Rattle.std.specs.Prelude.{◌≡◌, ◌+◌, ◌≤◌, ◌↔◌, length, IsOk, IfOk};
ghost use Rattle.console.specs.Trouble.{is_over};

use crate::{Ends, Failure, SystemError};
use standard::Refusal;

// What ended a stream before its input did: the system's error at a read or a write, or a refusal.
#[derive(Clone, Copy)]
pub enum Trouble {
    Reading(SystemError),
    Writing(SystemError),
    Refused(Refusal),
}

// Whether nothing more can be written to a stream's output.
pub fn is_over(ended: Result<(), Trouble>) -> bool
    ensures { result ≡ is_over ended }
{
    matches!(ended, Err(Trouble::Writing(_) | Trouble::Refused(_)))
}

impl Ends<'_> {
    // Writes bytes to the output.
    pub fn write_out(self, bytes: &[u8]) -> Result<(), Trouble> {
        self.send_out(self.output, bytes).map_err(Trouble::Writing)
    }

    // Reads into the buffer from place `start` up to `end`, and returns how many bytes came, none at the input's end.
    // The two places stay parameters: docs/DECISIONS.md names the function, and its clauses are over them.
    pub fn read_some(self, buffer: &mut [u8], start: usize, end: usize) -> Result<usize, Trouble>
        requires { (start ≤ end) × (end ≤ length buffer.old) }
        ensures { IfOk result (λ count. start + count ≤ end) }
    {
        self.read_once(self.input, &mut buffer[start..end])
            .map_err(|error| Trouble::Reading(SystemError::from(error)))
    }

    // Says what ended a stream before its input did, where something did.
    pub fn all_well(self, ended: Result<(), Trouble>) -> Result<(), Failure>
        ensures { IsOk result ↔ IsOk ended }
    {
        ended.map_err(|trouble| match trouble {
            Trouble::Reading(error) => self.fail_system(
                error,
                b"cannot read standard input: ",
                b"",
            ),
            Trouble::Writing(error) => self.fail_system(
                error,
                b"cannot write standard output: ",
                b"",
            ),
            Trouble::Refused(refusal) => self.fail(
                b"the CP says cleardown (drn 0), so no data can be sent or received with it (refusal #)",
                &[codes::code_of::<()>(Err(refusal)) as u64 % 256],
            ),
        })
    }
}
