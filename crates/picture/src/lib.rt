// Pictures of a planned constellation, for text and as an SVG drawing.
#![tactic(auto)]

mod rows;
mod svg;

ghost use Rattle.std.specs.Prelude.{◌≡◌, ◌^◌, ◌<◌, ◌≤◌, length};

use constellation::{Mask, belongs};
use standard::Law;
use words::Text;

// What a picture shows: what was asked for, the ceiling in the word that gave it, and what was found.
#[derive(Clone, Copy)]
pub struct Shown<'a> {
    pub k: u32,
    pub law: Law,
    pub spacing: u32,
    pub ceiling: &'a [u8],
    pub points: u32,
    pub sum: u64,
    pub mask: Mask,
}

// The Ucodes of a mask, the lowest first, in a buffer lent for them.
fn ucodes_of(m: Mask, ucodes: &mut [u8; 128]) -> &[u8]
    ensures { length result.now ≤ 128 }
{
    let mut n = 0;
    for u in 0..128 {
        ucodes[n] = u;
        n += belongs(m, u) as usize;
    }
    &ucodes[..n]
}

// The linear value of a Ucode; 0 where it is none.
fn value_of(law: Law, u: u8) -> u32
    ensures { result < 2 ^ 15 }
{
    if 128 <= u {
        return 0;
    }
    pcm::magnitude_of(law, u)
}

// A point: how many are before it, its Ucode, its linear value and that of the point before it, where there is one.
#[derive(Clone, Copy)]
struct Point {
    number: usize,
    ucode: u8,
    value: u32,
    before: Option<u32>,
}

// Point n, the points being counted from 0.
fn point_at(law: Law, ucodes: &[u8], n: usize) -> Point
    requires { n < length ucodes.now }
    ensures { (result.number ≡ n) × (result.value < 2 ^ 15) }
{
    let before = n.checked_sub(1).map(|k| value_of(law, ucodes[k]));
    let ucode = ucodes[n];
    Point {
        number: n,
        ucode,
        value: value_of(law, ucode),
        before,
    }
}

// The gap between a point and the one before it; for the first that is its own negative.
fn gap_of(p: Point) -> u64 {
    match p.before {
        Some(before) => p.value.saturating_sub(before) as u64,
        None => 2 * (p.value as u64),
    }
}

// The largest linear value of the points with these Ucodes; 0 where there is none.
fn top_of(law: Law, ucodes: &[u8]) -> u32
    ensures { result < 2 ^ 15 }
{
    match ucodes.last() {
        Some(u) => value_of(law, *u),
        None => 0,
    }
}

// Adds what was asked for.
fn add_asked(text: &mut Text<'_>, s: Shown<'_>)
    ensures { length text.new.bytes.now ≡ length text.old.bytes.now }
{
    let template: &[u8] = match s.law {
        Law::Mu => b"K #, mu-law, spacing #",
        Law::A => b"K #, A-law, spacing #",
    };
    text.add_values(template, &[s.k as u64, s.spacing as u64]);
    text.add_name(b", ceiling @", s.ceiling);
}

// Adds what was found.
fn add_found(text: &mut Text<'_>, s: Shown<'_>)
    ensures { length text.new.bytes.now ≡ length text.old.bytes.now }
{
    text.add_values(b"M #, sum of squares #", &[s.points as u64, s.sum]);
}

// Adds half of a mask in 16 hexadecimal digits.
fn add_half(text: &mut Text<'_>, half: u64)
    ensures { length text.new.bytes.now ≡ length text.old.bytes.now }
{
    let mut digits = [0u8; 16];
    let n = io::hex(half, 16, &mut digits);
    text.add_name(b"@", &digits[..n]);
}

// Adds the mask.
fn add_mask(text: &mut Text<'_>, m: Mask)
    ensures { length text.new.bytes.now ≡ length text.old.bytes.now }
{
    text.add_values(b"mask ", &[]);
    add_half(text, m.high);
    add_half(text, m.low);
    text.add_values(b", Ucode 127 in the top bit", &[]);
}

// Adds the picture for text.
pub fn add_text(text: &mut Text<'_>, s: Shown<'_>)
    ensures { length text.new.bytes.now ≡ length text.old.bytes.now }
{
    let mut ucodes = [0u8; 128];
    rows::add_picture(text, s, ucodes_of(s.mask, &mut ucodes));
}

// Adds the picture as an SVG drawing.
pub fn add_svg(text: &mut Text<'_>, s: Shown<'_>)
    ensures { length text.new.bytes.now ≡ length text.old.bytes.now }
{
    let mut ucodes = [0u8; 128];
    svg::add_picture(text, s, ucodes_of(s.mask, &mut ucodes));
}
