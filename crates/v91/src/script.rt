// The commands of a file, one a line, each with its own `< FILE` and `> FILE`. What they write and say goes to the output, so that a run of
// them can be kept and compared.
ghost use Rattle.std.specs.Prelude.{◌≡◌, ◌≤◌, length};

use crate::{run_command, tell_done};
use console::{Ends, Failure, Sink, Source, SystemError};
use std::fs::File;
use words::Text;

// Adds a character of a line to its words; for a space a 0, where a character stands before.
fn add_char(words: &mut Text<'_>, c: u8)
    ensures { length words.new.bytes.now ≡ length words.old.bytes.now }
{
    let at = words.at;
    if at == words.bytes.len() || (c == b' ' && (at == 0 || words.bytes[at - 1] == 0)) {
        return;
    }
    words.bytes[at] = if c == b' ' { 0 } else { c };
    words.at += 1;
}

// The words of a line, a 0 behind each, in a buffer that is lent; the text is full where there is no room.
fn words_of<'a>(line: &[u8], room: &'a mut [u8]) -> Text<'a>
    ensures { length result.bytes.now ≡ length room.old }
{
    let mut words = Text::new(room);
    for c in line {
        add_char(&mut words, *c);
    }
    add_char(&mut words, b' ');
    words
}

// The words from the first on that is this sign; none where there is no such word.
fn words_from<'a>(words: &'a [u8], sign: &[u8]) -> &'a [u8]
    ensures { length result.now ≤ length words.now }
{
    let k = parts::which(words, 0, sign);
    &words[k.map_or(words.len(), |k| parts::part_at(words, 0, k).start)..]
}

// Opens the file that is named behind a sign; none where there is no sign. Says so where it cannot be opened.
fn opened<F: FnOnce(&[u8]) -> Result<File, SystemError>>(
    e: Ends<'_>,
    words: &[u8],
    opener: F,
) -> Result<Option<File>, Failure>
    requires { F.IsAlwaysCallable opener }
{
    if words.is_empty() {
        return Ok(None);
    }
    let name = parts::nth_part(words, 0, 1);
    opener(name)
        .map(Some)
        .map_err(|error| e.fail_system(error, b"cannot open @: ", name))
}

// What a command reads from with a file, or with none.
// This and the next are one call each: a function over both types would need the case handed in and be no shorter.
fn source_of<'a>(from: &'a Option<File>, otherwise: Source<'a>) -> Source<'a> {
    from.as_ref().map_or(otherwise, Source::Opened)
}

// What a command writes to with a file, or with none.
fn sink_of<'a>(to: &'a Option<File>, otherwise: Sink<'a>) -> Sink<'a> {
    to.as_ref().map_or(otherwise, Sink::Opened)
}

// Runs the command in the words of a line.
fn run_words(e: Ends<'_>, words: &[u8]) -> Result<(), Failure> {
    let less = words_from(words, b"<");
    let more = words_from(words, b">");
    let end = words.len() - less.len().max(more.len());
    // Both are opened before either is given up, so that what is wrong with each is said.
    let from = opened(e, less, |name| e.open_read(name));
    let to = opened(e, more, |name| e.open_overwrite(name));
    let from = from?;
    let to = to?;
    let between = Ends {
        input: source_of(&from, e.input),
        output: sink_of(&to, e.output),
        shows: false,
        ..e
    };
    run_command(between, &words[0..end])
}

// Shows a line and runs its command. A line with no word has none, and neither has one that begins with #.
fn run_line(e: Ends<'_>, line: &[u8]) -> Result<(), Failure> {
    let written = e.write(line);
    let ended = e.write(b"\n");
    written.and(ended)?;
    let mut room = [0; 1024];
    let words = words_of(line, &mut room);
    if words.at == 1024 {
        return Err(e.fail(
            b"the line is too long; its words have 1,023 bytes at most",
            &[],
        ));
    }
    if matches!(words.as_slice().first(), None | Some(b'#')) {
        return Ok(());
    }
    let done = run_words(e, words.as_slice());
    tell_done(e, done);
    done
}

// Runs the commands of a text, one a line, each whatever came of those before it.
fn run_lines(e: Ends<'_>, text: &[u8]) -> Result<(), Failure> {
    let mut done = Ok(());
    for line in text.split_inclusive(|c| *c == b'\n') {
        let this = run_line(e, line.strip_suffix(b"\n").unwrap_or(line));
        done = done.and(this);
    }
    done
}

// Runs the commands of the file that word 1 names.
pub(crate) fn run(e: Ends<'_>, words: &[u8]) -> Result<(), Failure> {
    let name = parts::nth_part(words, 0, 1);
    // A buffer and a count: the program uses no heap.
    let mut text = [0u8; 32768];
    let count = e.fill_from(name, &mut text)?;
    if count == 32768 {
        return Err(e.fail_name(b"@ is too long; 32,767 bytes of commands can be run", name));
    }
    let kept = Ends {
        said: e.output,
        shows: false,
        ..e
    };
    run_lines(kept, &text[0..count])
}
