// What the words of send, receive and linear ask for.
use console::{Ends, Failure};
use parts::named;
use standard::Law;

const LAWS: [(&[u8], Law); 4] = [
    (b"mu", Law::Mu),
    (b"ulaw", Law::Mu),
    (b"a", Law::A),
    (b"alaw", Law::A),
];

// The law that word k names; says so where it names none.
// `e`, the words and a place stay three parameters, here and in `planner`: each call has another place.
pub(crate) fn law_at(e: Ends<'_>, words: &[u8], k: usize) -> Result<Law, Failure> {
    let word = parts::nth_part(words, 0, k);
    named(&LAWS, word).ok_or_else(|| e.fail_name(b"@ is no PCM law: LAW is mu or a", word))
}

// The words that may follow LAW.
#[derive(Clone, Copy)]
enum Word {
    Exact,
    Cold,
    Progress,
    Control,
    Cleardown,
    Retrain,
    Start,
}

const WORDS: [(&[u8], Word); 7] = [
    (b"exact", Word::Exact),
    (b"cold", Word::Cold),
    (b"progress", Word::Progress),
    (b"control", Word::Control),
    (b"cleardown", Word::Cleardown),
    (b"retrain", Word::Retrain),
    (b"start", Word::Start),
];

// What is asked: which words there are, the number that the last word of digits says, and whether there is any other word.
#[derive(Clone, Copy, PartialEq, Eq, Default)]
pub(crate) struct Asked {
    pub(crate) exact: bool,
    pub(crate) cold: bool,
    pub(crate) progress: bool,
    pub(crate) control: bool,
    pub(crate) cleardown: bool,
    pub(crate) retrain: bool,
    pub(crate) start: bool,
    pub(crate) number: Option<u64>,
    pub(crate) other: bool,
}

// The number in 1 to 54 binary digits, the lowest first.
pub(crate) fn binary_in(word: &[u8]) -> Option<u64> {
    if word.is_empty() | (54 < word.len()) || word.iter().any(|c| (*c != b'0') & (*c != b'1')) {
        return None;
    }
    Some(unaligned::number_of(word))
}

// With one word more, which is none of those that are known.
fn with_other(a: Asked, number: Option<u64>) -> Asked {
    if number.is_none() {
        return Asked { other: true, ..a };
    }
    Asked { number, ..a }
}

// What the words from word k on ask for; those of digits are the numbers that `number_in` finds in them.
pub(crate) fn asked_from<F: Fn(&[u8]) -> Option<u64>>(words: &[u8], k: usize, number_in: F) -> Asked
    requires { F.IsAlwaysCallable number_in }
{
    let mut a = Asked::default();
    for i in k..parts::part_count(words, 0) {
        let word = parts::nth_part(words, 0, i);
        a = match named(&WORDS, word) {
            Some(Word::Exact) => Asked { exact: true, ..a },
            Some(Word::Cold) => Asked { cold: true, ..a },
            Some(Word::Progress) => Asked {
                progress: true,
                ..a
            },
            Some(Word::Control) => Asked { control: true, ..a },
            Some(Word::Cleardown) => Asked {
                cleardown: true,
                ..a
            },
            Some(Word::Retrain) => Asked { retrain: true, ..a },
            Some(Word::Start) => Asked { start: true, ..a },
            None => with_other(a, number_in(word)),
        };
    }
    a
}
