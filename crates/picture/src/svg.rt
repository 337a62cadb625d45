// The picture as an SVG drawing: the points of both signs on one line, and a row for each. Lengths are tenths of a unit.
ghost use Rattle.std.specs.Prelude.{◌≡◌, ◌^◌, ◌<◌, ◌≤◌, length};

use crate::{Point, Shown, add_asked, add_found, add_mask, gap_of, point_at, top_of, value_of};
use standard::Law;
use words::Text;

// The length of the largest linear value.
const HALF_WIDTH: u64 = 3900;

// The length of a linear value, to scale and rounded down; 0 where there is no scale.
fn length_of(value: u32, top: u32) -> u64 {
    (HALF_WIDTH * (value as u64))
        .checked_div(top as u64)
        .unwrap_or(0)
}

// The distance of the grid's lines: the least of these that makes 6 of them or fewer on a side.
fn step_of(top: u32) -> u32
    ensures { (0 < result) × (result ≤ 10000) }
{
    for step in [20, 50, 100, 200, 500, 1000, 2000, 5000] {
        if top < 7 * step {
            return step;
        }
    }
    10_000
}

// Adds what was found, as two lines of text.
fn add_lines(text: &mut Text<'_>, s: Shown<'_>)
    ensures { length text.new.bytes.now ≡ length text.old.bytes.now }
{
    text.add_values(b"<text x=\"300\" y=\"680\" font-size=\"160\">", &[]);
    add_found(text, s);
    text.add_values(
        b"</text>\n<text x=\"300\" y=\"930\" font-family=\"monospace\">",
        &[],
    );
    add_mask(text, s.mask);
    text.add_values(b"</text>\n", &[]);
}

// Adds the beginning, with the lines that the picture for text has too.
fn add_head(text: &mut Text<'_>, s: Shown<'_>)
    ensures { length text.new.bytes.now ≡ length text.old.bytes.now }
{
    let height = 2900 + 200 * (s.points as u64);
    text.add_values(
        b"<svg xmlns=\"http://www.w3.org/2000/svg\" width=\"1000\" height=\"#\" viewBox=\"0 0 10000 #\" font-family=\"sans-serif\" \
        font-size=\"130\">\n<rect width=\"10000\" height=\"#\" fill=\"white\"/>\n<text x=\"300\" y=\"400\" font-size=\"200\">",
        &[height / 10, height, height],
    );
    add_asked(text, s);
    text.add_values(b"</text>\n", &[]);
    add_lines(text, s);
}

// Adds the grid's lines at a value and its negative, with their names above and below.
fn add_line(text: &mut Text<'_>, value: u32, x: u64, bottom: u64)
    requires { bottom < 2 ^ 60 }
    ensures { length text.new.bytes.now ≡ length text.old.bytes.now }
{
    let v = value as u64;
    let low = bottom + 200;
    text.add_values(
        b"<path d=\"M# 0V#M-# 0V#\" stroke=\"silver\" stroke-width=\"8\"/><text x=\"#\" y=\"-70\">#</text>\
        <text x=\"-#\" y=\"-70\">-#</text><text x=\"#\" y=\"#\">#</text><text x=\"-#\" y=\"#\">-#</text>\n",
        &[x, bottom, x, bottom, x, v, x, v, x, low, v, x, low, v],
    );
}

// Adds the grid, to the bottom given.
fn add_grid(text: &mut Text<'_>, top: u32, bottom: u64)
    requires { (top < 2 ^ 15) × (bottom < 2 ^ 60) }
    ensures { length text.new.bytes.now ≡ length text.old.bytes.now }
{
    text.add_values(
        b"<g transform=\"translate(5800 1400)\" text-anchor=\"middle\">\n<path d=\"M0 0V#\" stroke=\"silver\" stroke-width=\"8\"/>\
        <text y=\"-70\">0</text><text y=\"#\">0</text>\n",
        &[bottom, bottom + 200],
    );
    let step = step_of(top);
    for value in (step..=top).step_by(step as usize) {
        add_line(text, value, length_of(value, top), bottom);
    }
    text.add_values(b"</g>\n", &[]);
}

// Adds all points on one line.
fn add_strip(text: &mut Text<'_>, law: Law, ucodes: &[u8], top: u32)
    ensures { length text.new.bytes.now ≡ length text.old.bytes.now }
{
    text.add_values(
        b"<g transform=\"translate(5800 1700)\" stroke=\"navy\" stroke-width=\"20\">\n\
        <path d=\"M-3900 0H3900\" stroke=\"black\" stroke-width=\"10\"/>\n",
        &[],
    );
    for u in ucodes {
        let x = length_of(value_of(law, *u), top);
        text.add_values(b"<path d=\"M# -150v300M-# -150v300\"/>\n", &[x, x]);
    }
    text.add_values(b"</g>\n", &[]);
}

// Adds the names of the rows' columns, and the spacing about 0.
fn add_names(text: &mut Text<'_>, spacing: u32, top: u32)
    ensures { length text.new.bytes.now ≡ length text.old.bytes.now }
{
    let width = length_of(spacing, top);
    let half = width / 2;
    text.add_values(
        b"<g transform=\"translate(5800 2250)\" font-weight=\"bold\">\n<text x=\"-5200\" text-anchor=\"end\">Ucode</text>\
        <text x=\"-4650\" text-anchor=\"end\">linear</text><text x=\"-4200\" text-anchor=\"end\">gap</text>\n\
        <path d=\"M-# -120h#v120h-#z\" fill=\"orange\"/><text x=\"#\">spacing #</text>\n</g>\n<g text-anchor=\"end\">\n",
        &[half, width, width, half + 100, spacing as u64],
    );
}

// Adds the row of a point: its numbers, the spacing from the point before it, and the point, with both signs. Before the first the spacing
// reaches as far to either side of 0.
fn add_row(text: &mut Text<'_>, p: Point, spacing: u64, top: u32)
    requires { p.number < 2 ^ 32 }
    ensures { length text.new.bytes.now ≡ length text.old.bytes.now }
{
    let y = 2450 + 200 * (p.number as u64);
    let (from, width) = match p.before {
        Some(before) => (length_of(before, top), spacing),
        None => (0, spacing / 2),
    };
    let x = length_of(p.value, top);
    text.add_values(
        b"<g transform=\"translate(5800 #)\"><text x=\"-5200\">#</text><text x=\"-4650\">#</text><text x=\"-4200\">#</text>",
        &[y, p.ucode as u64, p.value as u64, gap_of(p)],
    );
    text.add_values(
        b"<path d=\"M# -120h#v120h-#zM-# -120h-#v120h#z\" fill=\"orange\"/>\
        <path d=\"M# -150v170M-# -150v170\" stroke=\"navy\" stroke-width=\"20\"/></g>\n",
        &[from, width, width, from, width, width, x, x],
    );
}

// Adds the rows of all points.
fn add_rows(text: &mut Text<'_>, law: Law, ucodes: &[u8], spacing: u64, top: u32)
    requires { length ucodes.now ≤ 128 }
    ensures { length text.new.bytes.now ≡ length text.old.bytes.now }
{
    for n in 0..ucodes.len() {
        add_row(text, point_at(law, ucodes, n), spacing, top);
    }
}

// Adds the picture of the points with these Ucodes.
pub(crate) fn add_picture(text: &mut Text<'_>, s: Shown<'_>, ucodes: &[u8])
    requires { length ucodes.now ≤ 128 }
    ensures { length text.new.bytes.now ≡ length text.old.bytes.now }
{
    let top = top_of(s.law, ucodes);
    add_head(text, s);
    add_grid(text, top, 1000 + 200 * (s.points as u64));
    add_strip(text, s.law, ucodes, top);
    add_names(text, s.spacing, top);
    add_rows(text, s.law, ucodes, length_of(s.spacing, top), top);
    text.add_values(b"</g>\n</svg>\n", &[]);
}
