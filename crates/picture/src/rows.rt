// The picture for text: a row for each point, drawn to scale along the line of linear values.
ghost use Rattle.std.specs.Prelude.{◌≡◌, length};

use crate::{Point, Shown, add_asked, add_found, add_mask, gap_of, point_at, top_of};
use standard::Law;
use words::Text;

// The column of the largest linear value.
const LAST_COLUMN: u64 = 56;

// The column of a linear value, to scale and rounded; 0 where there is no scale.
fn column_of(value: u32, top: u32) -> u64 {
    let top = top as u64;
    (2 * LAST_COLUMN * (value as u64) + top)
        .checked_div(2 * top)
        .unwrap_or(0)
}

// What is drawn in a row: a line to column `to`, where `mark` stands; it begins in column `from`, at the point before, or in column 0.
#[derive(Clone, Copy)]
struct Span {
    from: Option<u64>,
    to: u64,
    mark: u8,
}

// The character in column j.
fn drawn(s: Span, j: u64) -> u8 {
    if j == s.to {
        return s.mark;
    }
    if s.from == Some(j) {
        return b'+';
    }
    if j == 0 {
        return b'|';
    }
    if s.from.unwrap_or(0) < j {
        return b'-';
    }
    b' '
}

// Adds a line, column by column.
fn add_span(text: &mut Text<'_>, s: Span)
    ensures { length text.new.bytes.now ≡ length text.old.bytes.now }
{
    for j in 0..s.to {
        text.add_name(b"@", &[drawn(s, j)]);
    }
    text.add_name(b"@", &[s.mark]);
}

// Adds the numbers of a point.
fn add_point(text: &mut Text<'_>, p: Point)
    ensures { length text.new.bytes.now ≡ length text.old.bytes.now }
{
    text.add_right(5, p.ucode as u64);
    text.add_right(8, p.value as u64);
    text.add_right(7, gap_of(p));
}

// Adds two spaces, a line and what a template says.
fn add_drawn(text: &mut Text<'_>, s: Span, template: &[u8])
    ensures { length text.new.bytes.now ≡ length text.old.bytes.now }
{
    text.add_values(b"  ", &[]);
    add_span(text, s);
    text.add_values(template, &[]);
}

// Adds the row of a point.
fn add_row(text: &mut Text<'_>, p: Point, top: u32)
    ensures { length text.new.bytes.now ≡ length text.old.bytes.now }
{
    add_point(text, p);
    let span = Span {
        from: p.before.map(|value| column_of(value, top)),
        to: column_of(p.value, top),
        mark: b'o',
    };
    add_drawn(text, span, b"\n");
}

// Adds the rows of all points.
fn add_rows(text: &mut Text<'_>, law: Law, ucodes: &[u8], top: u32)
    ensures { length text.new.bytes.now ≡ length text.old.bytes.now }
{
    for n in 0..ucodes.len() {
        add_row(text, point_at(law, ucodes, n), top);
    }
}

// Adds the scale: the columns' names with 0 and the largest value, and the spacing.
fn add_scale(text: &mut Text<'_>, spacing: u32, top: u32)
    ensures { length text.new.bytes.now ≡ length text.old.bytes.now }
{
    text.add_values(b"Ucode  linear    gap  0", &[]);
    text.add_right(56, top as u64);
    text.add_values(b"\n", &[]);
    text.add_right(20, spacing as u64);
    let span = Span {
        from: None,
        to: column_of(spacing, top),
        mark: b'|',
    };
    add_drawn(text, span, b" the spacing\n");
}

// Adds the three lines that say what is shown.
fn add_head(text: &mut Text<'_>, s: Shown<'_>)
    ensures { length text.new.bytes.now ≡ length text.old.bytes.now }
{
    add_asked(text, s);
    text.add_values(b"\n", &[]);
    add_found(text, s);
    text.add_values(b"\n", &[]);
    add_mask(text, s.mask);
    text.add_values(b"\n", &[]);
}

// Adds the picture of the points with these Ucodes.
pub(crate) fn add_picture(text: &mut Text<'_>, s: Shown<'_>, ucodes: &[u8])
    ensures { length text.new.bytes.now ≡ length text.old.bytes.now }
{
    let Some(first) = ucodes.first() else {
        return;
    };
    let top = top_of(s.law, ucodes);
    add_head(text, s);
    add_scale(text, s.spacing, top);
    add_rows(text, s.law, ucodes, top);
    text.add_values(
        b"the gap of Ucode # is the one between its two signs\n",
        &[*first as u64],
    );
}
