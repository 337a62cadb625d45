// A text in parts, each of which ends with a character of its own: the words of a command, the lines of a table.
#![tactic(auto)]

ghost use Rattle.std.specs.Prelude.{◌≡◌, true, map, ◌+◌, ◌-◌, ◌≤◌, eqb, length, take, drop, MatchOption};
ghost use Rattle.std.specs.List.{position_or_len};
ghost use Rattle.parts.specs.Parts.{small, same as Parts·same, which as Parts·which};
ghost use Rattle.parts.specs.Parts.{before, past, parts_from, part_at, part_count, named, all_digits, value_from, number_in};

use std::ops::Range;

// The place where the part from `start` on ends: that of the first e, or the text's end where there is none.
fn end_from(text: &[u8], e: u8, start: usize) -> usize
    requires { start ≤ length text.now }
    ensures place { result ≡ start + position_or_len (λ c. eqb c e) (drop start text.now) }
    ensures within { result ≤ length text.now }
{
    let rest = &text[start..];
    start + rest.iter().position(|c| *c == e).unwrap_or(rest.len())
}

// The place where the part after the one from `start` on begins; the text's end where there is none.
fn start_after(text: &[u8], e: u8, start: usize) -> usize
    requires { start ≤ length text.now }
    ensures { (result ≤ length text.now) × (drop result text.now ≡ past e (drop start text.now)) }
{
    text.len().min(end_from(text, e, start) + 1)
}

// Part k of a text, the first of which is part 0; nothing where the text has fewer. From its start on the text is part k and those after it.
pub fn part_at(text: &[u8], e: u8, k: usize) -> Range<usize>
    ensures { (result.start ≤ result.end) × (result.end ≤ length text.now)
        × (drop result.start text.now ≡ parts_from e k text.now)
        × (take (result.end - result.start) (drop result.start text.now) ≡ part_at e k text.now) }
{
    let mut start = 0;
    for i in 0..k {
        start = start_after(text, e, start);
    }
    start..end_from(text, e, start)
}

// The same, as a part of the text.
pub fn nth_part(text: &[u8], e: u8, k: usize) -> &[u8]
    ensures { result.now ≡ part_at e k text.now }
{
    &text[part_at(text, e, k)]
}

// How many parts a text has.
pub fn part_count(text: &[u8], e: u8) -> usize
    ensures { (result ≡ part_count e text.now) × (result ≤ length text.now) }
{
    text.iter().filter(|c| **c == e).count()
}

// Whether a text is the word in small letters.
// `eq_ignore_ascii_case` would make the text small too: the definition `same` compares it as it stands.
fn same(text: &[u8], word: &[u8]) -> bool
    ensures { result ≡ Parts·same text.now (map small word.now) }
{
    let lowered = word.iter().map(|c| c.to_ascii_lowercase());
    text.len() == word.len() && text.iter().zip(lowered).all(|(c, d)| *c == d)
}

// Which part of a text is the word, in small letters or capitals; none where no part is.
pub fn which(text: &[u8], e: u8, word: &[u8]) -> Option<usize>
    ensures { MatchOption result (Parts·which e text.now word.now ≡ 0) (λ k. Parts·which e text.now word.now ≡ k + 1) }
{
    for k in 0..part_count(text, e) {
        if same(nth_part(text, e, k), word) {
            return Some(k);
        }
    }
    None
}

// What a table has for a word in small letters or capitals: that of the first row whose name is the word; nothing where no name is.
pub fn named<T: Copy>(table: &[(&[u8], T)], word: &[u8]) -> Option<T>
    ensures { result ≡ named table.now word.now }
{
    table.iter().find(|row| same(row.0, word)).map(|row| row.1)
}

// Whether every character is a digit.
pub fn all_digits(word: &[u8]) -> bool
    ensures { result ≡ all_digits word.now }
{
    word.iter().all(|c| c.is_ascii_digit())
}

// The number that up to 18 digits say.
// `parse` takes a str and answers a Result, and no digits here fail.
fn value_of(word: &[u8]) -> u64
    requires { (length word.now ≤ 18) × (all_digits word.now ≡ true) }
    ensures { result ≡ value_from 0 word.now }
{
    let mut value = 0;
    for c in word {
        value = 10 * value + (*c - b'0') as u64;
    }
    value
}

// The number that a word of 1 to 18 digits says.
pub fn number_in(word: &[u8]) -> Option<u64>
    ensures { result ≡ number_in word.now }
{
    if (1..=18).contains(&word.len()) && all_digits(word) {
        return Some(value_of(word));
    }
    None
}
