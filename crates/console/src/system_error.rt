// Why the system did not do what it was asked, and what is said of it.
ghost use Rattle.std.specs.Prelude.{◌≡◌, length};
ghost use Rattle.std.specs.IoError.{error_kind, raw_os_error};
ghost use Rattle.console.specs.SystemErrors.{error_of, FailedWith};
ghost use Rattle.console.specs.declared.system_error.SystemError.TheVariants.{NameNotText};

use std::io::{Error, ErrorKind};
use std::str::Utf8Error;
use words::Text;

// What the system answers where a call fails. Beside each name stand the system's own errors.
#[derive(Clone, Copy, PartialEq, Eq)]
pub enum SystemError {
    // ENOENT, ENOTDIR
    NoFile,
    // EBADF
    NotOpen,
    // EACCES
    NotAllowed,
    // EISDIR
    IsDirectory,
    // EINVAL, ENAMETOOLONG
    NameImpossible,
    // EFBIG
    FileTooLarge,
    // ENOSPC
    NoSpace,
    // EPIPE
    NobodyReads,
    // EILSEQ
    NameNotText,
    // any other, by its number
    Other(i32),
}

// EIO, what a call failed with that did not come to the system.
const INPUT_OUTPUT: i32 = 5;

// The error of this number.
fn error_of(number: i32) -> SystemError
    ensures { result ≡ error_of number }
{
    match number {
        2 | 20 => SystemError::NoFile,
        9 => SystemError::NotOpen,
        13 => SystemError::NotAllowed,
        21 => SystemError::IsDirectory,
        22 | 36 => SystemError::NameImpossible,
        27 => SystemError::FileTooLarge,
        28 => SystemError::NoSpace,
        32 => SystemError::NobodyReads,
        84 => SystemError::NameNotText,
        _ => SystemError::Other(number),
    }
}

impl From<Error> for SystemError {
    ghost from_gives = { λ error e. FailedWith (raw_os_error error) (error_kind error) e };

    // The system's own error. Where the call did not come to the system, the name is one that no file can have, or else it is EIO.
    fn from(error: Error) -> SystemError {
        match error.raw_os_error() {
            Some(number) => error_of(number),
            None if error.kind() == ErrorKind::InvalidInput => SystemError::NameImpossible,
            None => SystemError::Other(INPUT_OUTPUT),
        }
    }
}

impl From<Utf8Error> for SystemError {
    ghost from_gives = { λ _ e. e ≡ NameNotText };

    // A file is named to the system in UTF-8 alone.
    fn from(_error: Utf8Error) -> SystemError {
        Self::NameNotText
    }
}

impl SystemError {
    // What is said of it; # stands for its number.
    fn reason(self) -> &'static [u8] {
        match self {
            SystemError::NoFile => b"there is no such file",
            SystemError::NotOpen => b"it is closed, or not open for this",
            SystemError::NotAllowed => b"this user may not",
            SystemError::IsDirectory => b"it is a directory, and a file is wanted",
            SystemError::NameImpossible => b"no file can have this name",
            SystemError::FileTooLarge => b"the file would be larger than is allowed",
            SystemError::NoSpace => b"no space is left: make room, or write elsewhere",
            SystemError::NobodyReads => b"nobody reads it any more",
            SystemError::NameNotText => b"a file is named in UTF-8",
            SystemError::Other(_) => b"the system's error number is #",
        }
    }

    // The number that is said of it, where one is.
    fn number(self) -> u64 {
        match self {
            SystemError::Other(number) => text::magnitude(number),
            _ => 0,
        }
    }

    // Adds what is said of it.
    pub(crate) fn add_to(self, text: &mut Text<'_>)
        ensures { length text.new.bytes.now ≡ length text.old.bytes.now }
    {
        text.add_values(self.reason(), &[self.number()]);
    }
}
