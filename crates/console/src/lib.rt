// What a program reads, writes and says, and what it says where that fails. What is read and written no contract can tell.
#![tactic(auto)]

ghost use Rattle.std.specs.Prelude.{◌≡◌, length};

mod ends;
mod files;
mod meter;
mod system_error;
mod trouble;

pub use ends::{Ends, Failure, Sink, Source, standard_ends};
pub use meter::Meter;
use std::env::{Env, FillError};
pub use system_error::SystemError;
pub use trouble::{Trouble, is_over};
use words::Text;

// Adds argument i and a 0 behind it to the text; the text is full where there is no room.
fn take_word(rt: HostRuntime, text: &mut Text<'_>, i: usize)
    ensures { length text.new.bytes.now ≡ length text.old.bytes.now }
{
    let room = &mut text.bytes[text.at..];
    match rt.arg(i, room) {
        Ok(n) if n < room.len() => {
            room[n] = 0;
            text.at += n + 1;
        }
        _ => text.at = text.bytes.len(),
    }
}

// Whether there is an argument i.
fn has_word(rt: HostRuntime, i: usize) -> bool {
    !matches!(rt.arg(i, &mut [0u8; 1]), Err(FillError::NotPresent))
}

// The words of the command line, a 0 behind each, in a buffer that is lent; the text is full where there is no room, and no more is fetched.
pub fn take_words(rt: HostRuntime, room: &mut [u8]) -> Text<'_>
    ensures { length result.bytes.now ≡ length room.old }
{
    let mut text = Text::new(room);
    for i in 1..usize::MAX {
        if text.at == text.bytes.len() || !has_word(rt, i) {
            break;
        }
        take_word(rt, &mut text, i);
    }
    text
}
