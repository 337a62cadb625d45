// A CP sequence and the cost of a flipped sign in plain words, and the program's example.
#![tactic(auto)]

mod example;
mod flipped;

ghost use Rattle.std.specs.Prelude.{◌≡◌, ◌+◌, ◌*◌, ◌<◌, ◌≤◌, ltb, length, if◌then◌else◌};
ghost use Rattle.standard.specs.Record.{half_of};
ghost use Rattle.standard.specs.Constellation.{size_of};
ghost use Rattle.constellation.specs.Mask.{has};

use constellation::{Mask, belongs, d_of, k_of};
pub use example::{add_example, example_record};
pub use flipped::add_flip;
use standard::Record;
use words::Text;

// Adds the rate as V.91 Table 2 prints it, or that this is a cleardown.
pub fn add_rate_words(text: &mut Text<'_>, r: Record)
    ensures { length text.new.bytes.now ≡ length text.old.bytes.now }
{
    let d = d_of(r) as u64;
    let template: &[u8] = match (r.drn, 4 * d % 3) {
        (0, _) => b"cleardown",
        (_, 0) => b"# kbit/s",
        (_, 1) => b"# 1/3 kbit/s",
        _ => b"# 2/3 kbit/s",
    };
    text.add_values(template, &[4 * d / 3]);
}

// Adds the rate, drn, K and D, or that this is a cleardown.
pub(crate) fn add_rate(text: &mut Text<'_>, r: Record)
    ensures { length text.new.bytes.now ≡ length text.old.bytes.now }
{
    if r.drn == 0 {
        add_rate_words(text, r);
        text.add_values(b" (drn 0): no data is sent\n", &[]);
        return;
    }
    text.add_values(b"rate ", &[]);
    add_rate_words(text, r);
    text.add_values(
        b", drn #: a frame has # data bits (D), # of them in R (K)\n",
        &[r.drn as u64, d_of(r) as u64, k_of(r) as u64],
    );
}

// Mask m of a record.
fn mask_at(r: Record, m: usize) -> Mask
    requires { m < 6 }
    ensures { result ≡ record { low = half_of r (2 * m); high = half_of r (2 * m + 1) } }
{
    Mask {
        low: r.mask[2 * m],
        high: r.mask[2 * m + 1],
    }
}

// How many points mask m has; none where there is no such mask.
pub fn points_in(r: Record, m: u8) -> u64
    ensures { result ≡ (if ltb 5 m then 0 else size_of (has (record { low = half_of r (2 * m); high = half_of r (2 * m + 1) })) 128) }
{
    if 5 < m {
        return 0;
    }
    constellation::size_of(mask_at(r, m as usize))
}

// Adds the six intervals.
fn add_intervals(text: &mut Text<'_>, r: Record)
    ensures { length text.new.bytes.now ≡ length text.old.bytes.now }
{
    for i in 0..6 {
        let m = r.index[i];
        text.add_values(
            b"interval #: mask #, # point~\n",
            &[i as u64, m as u64, points_in(r, m)],
        );
    }
}

// The end of the run of Ucodes in the mask that starts at u.
fn run_end(m: Mask, u: u8) -> u8
    requires { u < 128 }
    ensures { (u < result) × (result ≤ 128) }
{
    (u + 1..128).find(|end| !belongs(m, *end)).unwrap_or(128)
}

// Adds the Ucodes from u up to `end`.
fn add_run(text: &mut Text<'_>, u: u8, end: u8)
    requires { u < end }
    ensures { length text.new.bytes.now ≡ length text.old.bytes.now }
{
    let last = end - 1;
    if u == last {
        text.add_values(b" #", &[u as u64]);
    } else {
        text.add_values(b" #-#", &[u as u64, last as u64]);
    }
}

// Adds the runs of Ucodes of a mask. The Ucode at a run's end is in none, so the next run begins past it.
fn add_runs(text: &mut Text<'_>, m: Mask)
    ensures { length text.new.bytes.now ≡ length text.old.bytes.now }
{
    let mut past = 0;
    for u in 0..128 {
        if past <= u && belongs(m, u) {
            let end = run_end(m, u);
            add_run(text, u, end);
            past = end + 1;
        }
    }
}

// Adds a mask.
fn add_mask(text: &mut Text<'_>, r: Record, m: usize)
    requires { m < 6 }
    ensures { length text.new.bytes.now ≡ length text.old.bytes.now }
{
    let mask = mask_at(r, m);
    if constellation::size_of(mask) == 0 {
        text.add_values(b"mask #: no Ucode\n", &[m as u64]);
        return;
    }
    text.add_values(b"mask #: Ucodes", &[m as u64]);
    add_runs(text, mask);
    text.add_values(b"\n", &[]);
}

// Adds the masks up to the largest index.
fn add_masks(text: &mut Text<'_>, r: Record)
    ensures { length text.new.bytes.now ≡ length text.old.bytes.now }
{
    let count = constellation::largest_index(r) as usize + 1;
    for m in 0..count.min(6) {
        add_mask(text, r, m);
    }
}

// A flag as a word. `line` has a line like this one too: a crate below both would name it and say no more.
fn yes_or_no(flag: bool) -> &'static [u8] {
    if flag { b"yes" } else { b"no" }
}

// Adds the record of a CP sequence and its length.
pub fn add_record(text: &mut Text<'_>, r: Record, bit_count: usize)
    ensures { length text.new.bytes.now ≡ length text.old.bytes.now }
{
    text.add_values(b"CP sequence of # bits\n", &[bit_count as u64]);
    add_rate(text, r);
    text.add_name(b"granted @, ", yes_or_no(r.granted));
    text.add_name(b"acknowledge @\n", yes_or_no(r.acknowledge));
    add_intervals(text, r);
    add_masks(text, r);
}
