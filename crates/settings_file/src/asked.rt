// What the words of the command settings ask for: FILE, one of new, list, put, back and show, and what that takes.
use console::{Ends, Failure};

// What is asked for: the CP of a file put as the setting of a junction, or what needs no CP.
#[derive(Clone, Copy)]
pub enum Asked {
    Put(u16),
    Run(Command),
}

// What needs no CP: a file made, of version 2 or 1, its junctions listed, and the setting of a junction exchanged with the one before it or
// shown, as a CP or in plain words.
#[derive(Clone, Copy)]
pub enum Command {
    New { two: bool },
    List,
    Back(u16),
    Show { junction: u16, as_cp: bool },
}

// The words that follow FILE.
#[derive(Clone, Copy)]
enum Form {
    New,
    List,
    Put,
    Back,
    Show,
}

const FORMS: [(&[u8], Form); 5] = [
    (b"new", Form::New),
    (b"list", Form::List),
    (b"put", Form::Put),
    (b"back", Form::Back),
    (b"show", Form::Show),
];

impl Form {
    // The fewest and the most words of a command with this word behind FILE.
    fn word_counts(self) -> (usize, usize) {
        match self {
            Form::New => (3, 4),
            Form::List => (3, 3),
            Form::Put => (5, 5),
            Form::Back => (4, 4),
            Form::Show => (4, 5),
        }
    }
}

// The word that follows FILE; says so where it is another.
fn form_in(e: Ends<'_>, words: &[u8]) -> Result<Form, Failure> {
    let word = parts::nth_part(words, 0, 2);
    parts::named(&FORMS, word).ok_or_else(|| {
        e.fail_name(
            b"after FILE settings takes new, list, put, back or show, not @",
            word,
        )
    })
}

// Whether a new file is of version 2: the version that word 3 names, 1 where there is no such word; says so where it names another.
fn two_in(e: Ends<'_>, words: &[u8]) -> Result<bool, Failure> {
    if parts::part_count(words, 0) < 4 {
        return Ok(false);
    }
    match parts::nth_part(words, 0, 3) {
        b"1" => Ok(false),
        b"2" => Ok(true),
        word => Err(e.fail_name(b"after new there may be the version, 1 or 2, not @", word)),
    }
}

// The junction that word 3 names; says so where it names none.
fn junction_in(e: Ends<'_>, words: &[u8]) -> Result<u16, Failure> {
    let word = parts::nth_part(words, 0, 3);
    let junction = parts::number_in(word).and_then(|number| u16::try_from(number).ok());
    junction.ok_or_else(|| e.fail_name(b"JUNCTION is a number from 0 to 65535, not @", word))
}

// Whether a CP is asked for: word 4 is cp where there is one; says so where it is another.
fn as_cp_in(e: Ends<'_>, words: &[u8]) -> Result<bool, Failure> {
    if parts::part_count(words, 0) < 5 {
        return Ok(false);
    }
    let word = parts::nth_part(words, 0, 4);
    if !word.eq_ignore_ascii_case(b"cp") {
        return Err(e.fail_name(b"after JUNCTION there may be the word cp, not @", word));
    }
    Ok(true)
}

// What the words ask for; says what is wrong with them.
pub fn asked_in(e: Ends<'_>, words: &[u8]) -> Result<Asked, Failure> {
    let form = form_in(e, words)?;
    let (least, most) = form.word_counts();
    e.has(words, least, most)?;
    let command = match form {
        Form::New => Command::New {
            two: two_in(e, words)?,
        },
        Form::List => Command::List,
        Form::Put => return junction_in(e, words).map(Asked::Put),
        Form::Back => Command::Back(junction_in(e, words)?),
        Form::Show => {
            let as_cp = as_cp_in(e, words)?;
            let junction = junction_in(e, words)?;
            Command::Show { junction, as_cp }
        }
    };
    Ok(Asked::Run(command))
}
