// The command plan: what it asks for, what it says where that is refused, and the forms in which a plan is written.
ghost use Rattle.std.specs.Prelude.{◌≤◌};

use crate::asked::law_at;
use console::{Ends, Failure};
use constellation::Mask;
use parts::named;
use picture::Shown;
use standard::{Law, Planned, Refusal};
use words::Text;

// The forms in which a plan is written: for text, as an SVG drawing, and as a CP.
#[derive(Clone, Copy)]
enum Form {
    Text,
    Svg,
    Cp,
}

const FORMS: [(&[u8], Form); 2] = [(b"svg", Form::Svg), (b"cp", Form::Cp)];

// What is to be planned: a mask for K in a law that keeps a spacing, with a sum of squares within a ceiling, which `said` gave.
#[derive(Clone, Copy)]
struct Wanted<'a> {
    k: u32,
    law: Law,
    spacing: u32,
    ceiling: u64,
    said: &'a [u8],
    ghost rate: { (15 ≤ k) × (k ≤ 42) },
}

// The number that word k says; says what is wanted where it says none.
fn number_at(e: Ends<'_>, words: &[u8], k: usize, wanted: &[u8]) -> Result<u64, Failure> {
    let word = parts::nth_part(words, 0, k);
    parts::number_in(word).ok_or_else(|| e.fail_name(wanted, word))
}

// The ceiling that word k says. No sum has more than 18 digits, so any longer number is as good as the largest.
fn ceiling_at(e: Ends<'_>, words: &[u8], k: usize) -> Result<u64, Failure> {
    let word = parts::nth_part(words, 0, k);
    if parts::all_digits(word) & (18 < word.len()) {
        return Ok(u64::MAX);
    }
    number_at(e, words, k, b"CEILING is a number, not @")
}

// The form that word 5 asks for, text where there is no such word; says so where it asks for another.
fn form_at(e: Ends<'_>, words: &[u8]) -> Result<Form, Failure> {
    if parts::part_count(words, 0) < 6 {
        return Ok(Form::Text);
    }
    let word = parts::nth_part(words, 0, 5);
    named(&FORMS, word).ok_or_else(|| {
        e.fail_name(
            b"after CEILING there may be the word svg or cp, not @",
            word,
        )
    })
}

// What the words ask for, K, LAW, SPACING and CEILING, and then the form; says what is wrong with them.
fn wanted_in<'a>(e: Ends<'_>, words: &'a [u8]) -> Result<(Wanted<'a>, Form), Failure> {
    let k = number_at(e, words, 1, b"K is a number from 15 to 42, not @")?;
    let law = law_at(e, words, 2)?;
    let spacing = number_at(e, words, 3, b"SPACING is a number from 1 to 65535, not @")?;
    let ceiling = ceiling_at(e, words, 4)?;
    let form = form_at(e, words)?;
    if !(15..=42).contains(&k) {
        return Err(e.fail(b"K is #; it is 15 to 42 (refusal 26)", &[k]));
    }
    if !(1..=65535).contains(&spacing) {
        return Err(e.fail(
            b"the spacing is #; it is 1 to 65535 (refusal 26)",
            &[spacing],
        ));
    }
    let wanted = Wanted {
        k: k as u32,
        law,
        spacing: spacing as u32,
        ceiling,
        said: parts::nth_part(words, 0, 4),
    };
    Ok((wanted, form))
}

// Says that no mask keeps the spacing, and which one is kept.
fn refuse_spacing(e: Ends<'_>, w: Wanted<'_>) -> Failure {
    let points = choosing::points_for(w.k);
    let largest = plan::largest_spacing(w.k, w.law, u64::MAX);
    e.fail(
        if largest == 0 {
            b"no mask of # points keeps any spacing in mu-law, where Ucode 0 has the value 0 (refusal 27)"
        } else {
            b"no mask of # points keeps the spacing #; the largest spacing that one keeps is # (refusal 27)"
        },
        &[points as u64, w.spacing as u64, largest as u64],
    )
}

// Says that the least sum exceeds the ceiling, and which spacing is within it.
fn refuse_ceiling(e: Ends<'_>, w: Wanted<'_>) -> Failure {
    // What is refused for its ceiling is not refused without one, so there is a sum.
    let least = plan::plan(w.k, w.law, w.spacing, u64::MAX).map_or(0, |p| p.sum);
    let largest = plan::largest_spacing(w.k, w.law, w.ceiling);
    e.fail_values(
        if largest == 0 {
            b"the least sum of squares at spacing # is #, above the ceiling @; no spacing is within it (refusal 28)"
        } else {
            b"the least sum of squares at spacing # is #, above the ceiling @; the largest spacing within it is # (refusal 28)"
        },
        &[w.spacing as u64, least, largest as u64],
        w.said,
    )
}

// Writes the picture for text.
// This and the next each fill a buffer of their own size.
fn write_text(e: Ends<'_>, s: Shown<'_>) -> Result<(), Failure> {
    let mut room = [0; 32768];
    let mut text = Text::new(&mut room);
    picture::add_text(&mut text, s);
    e.write(text.as_slice())
}

// Writes the picture as an SVG drawing.
fn write_svg(e: Ends<'_>, s: Shown<'_>) -> Result<(), Failure> {
    let mut room = [0; 65536];
    let mut text = Text::new(&mut room);
    picture::add_svg(&mut text, s);
    e.write(text.as_slice())
}

// Writes the CP of the record with a mask for all six intervals.
fn write_cp(e: Ends<'_>, w: Wanted<'_>, mask: [u64; 2]) -> Result<(), Failure> {
    let mut bytes = [0u8; 37];
    // A planned mask has points enough, so its record is not refused.
    let _ = cp::write_cp(plan::one_mask(w.k, mask), &mut bytes);
    e.write(&bytes)
}

// Writes a plan in a form.
fn write_plan(e: Ends<'_>, w: Wanted<'_>, p: Planned, form: Form) -> Result<(), Failure> {
    let [low, high] = p.mask;
    let shown = Shown {
        k: w.k,
        law: w.law,
        spacing: w.spacing,
        ceiling: w.said,
        points: p.points,
        sum: p.sum,
        mask: Mask { low, high },
    };
    match form {
        Form::Text => return write_text(e, shown),
        Form::Svg => write_svg(e, shown)?,
        Form::Cp => write_cp(e, w, p.mask)?,
    }
    // The output is a file's where it is not for text, so what was found is said too.
    e.tell(b"M #, sum of squares #", &[p.points as u64, p.sum]);
    Ok(())
}

// Plans a mask as the words ask, and writes it or says what it is refused for.
pub(crate) fn plan(e: Ends<'_>, words: &[u8]) -> Result<(), Failure> {
    let (w, form) = wanted_in(e, words)?;
    match plan::plan(w.k, w.law, w.spacing, w.ceiling) {
        Ok(planned) => write_plan(e, w, planned, form),
        Err(Refusal::NoMask) => Err(refuse_spacing(e, w)),
        Err(_) => Err(refuse_ceiling(e, w)),
    }
}
