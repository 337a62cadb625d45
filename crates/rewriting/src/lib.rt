// A settings file written afresh: entries copied from another one, those of a junction among them, and the trailer.
#![tactic(auto)]

ghost use Rattle.std.specs.Prelude.{◌≡◌, [], ◌∷◌, ◌++◌, ◌+◌, ◌<◌, ◌≤◌, length, IfOk, IfSome};
ghost use Rattle.standard.specs.Refusals.{outcome_answer};
ghost use Rattle.standard.specs.Settings.{little, file_of, trailer};
ghost use Rattle.standard.specs.Calls.{written_length, written_out};
ghost use Rattle.entries.specs.Entries.{LieInside, Few, sizes};
ghost use Rattle.laying.specs.Laying.{laid, Room, Writes};
ghost use Rattle.rewriting.specs.Rewriting.{own_entries, around, rewritten, written_refusal, Short};

use entries::Entries;
use laying::{Spot, Writer, put_number};
use standard::{Refusal, Version};

// The settings of a junction: the CP of its current one and, where there is one, that of the previous one.
#[derive(Clone, Copy)]
pub struct JunctionSettings<'a> {
    pub junction: usize,
    pub current: &'a [u8],
    pub previous: Option<&'a [u8]>,
}

// Writes entries of a file, those of a junction, and others of the file.
fn put_entries(
    writer: &mut Writer<'_>,
    front: &Entries<'_>,
    own: &JunctionSettings<'_>,
    rest: &Entries<'_>,
)
    requires inside { LieInside front.now × LieInside rest.now }
    requires room { Room writer.old (around front.now (own_entries own.now) rest.now) }
    requires short { Short own.now }
    ensures same_buffer { writer.new.out.ghost_name ≡ writer.old.out.ghost_name }
    ensures lays { Writes writer.old (around front.now (own_entries own.now) rest.now) writer.new }
{
    writer.copy_entries(front);
    writer.put_entry(own.junction, 0, own.current);
    writer.put_previous(own.junction, own.previous);
    writer.copy_entries(rest);
}

// The bytes of the entries of one junction.
fn own_size(w: usize, own: &JunctionSettings<'_>) -> usize
    requires { (w ≤ 4) × Short own.now }
    ensures value { result ≡ sizes w (own_entries own.now) }
    ensures upper_bound { result ≤ 526 }
{
    let current = 4 + own.current.len() + w;
    match own.previous {
        Some(cp) => current + 4 + cp.len() + w,
        None => current,
    }
}

// Writes the trailer behind the entries.
fn put_trailer(writer: &mut Writer<'_>, form: Version, count: usize)
    requires room { writer.old.spot.to + trailer form ≤ length writer.old.out.now }
    requires form { (form.start ≤ 4) × (form.count ≤ 2) }
    ensures same_buffer { writer.new.out.ghost_name ≡ writer.old.out.ghost_name }
    ensures lays { writer.new.out.now ≡ laid writer.old.out.now writer.old.spot.to
        (little form.count count ++ (little form.start writer.old.spot.before ++ (form.byte ∷ []))) }
{
    let to = writer.spot.to;
    put_number(writer.out, to, count, form.count);
    put_number(writer.out, to + form.count, writer.spot.before, form.start);
    put_number(
        writer.out,
        to + form.count + form.start,
        usize::from(form.byte),
        1,
    );
}

// Writes a file of a form afresh: the first `below` entries of a file, those of one junction, and those from number `upto` on. Refusal 17.
pub fn written(
    entries: &Entries<'_>,
    below: usize,
    upto: usize,
    own: &JunctionSettings<'_>,
    form: Version,
    out: &mut [u8],
) -> Result<usize, Refusal>
    requires inside { LieInside entries.now }
    requires few { Few entries.now }
    requires numbers { (below ≤ entries.now.count) × (upto ≤ entries.now.count) }
    requires form { (form.start ≤ 4) × (form.count ≤ 2) }
    requires short { Short own.now }
    ensures refusal { let t = file_of form (rewritten entries.now below upto (own_entries own.now)) in
        outcome_answer result ≡ written_refusal (length out.old) t }
    ensures length { let t = file_of form (rewritten entries.now below upto (own_entries own.now)) in
        IfOk result (λ n. n ≡ written_length (written_refusal (length out.old) t) t) }
    ensures written { let t = file_of form (rewritten entries.now below upto (own_entries own.now)) in
        out.new ≡ written_out (written_refusal (length out.old) t) t out.old }
{
    let front = Entries {
        count: below,
        ..*entries
    };
    let rest = Entries {
        from: entries.place_after(upto),
        count: entries.count - upto,
        ..*entries
    };
    let w = form.start;
    let body = front.size_of(w) + own_size(w, own) + rest.size_of(w);
    let length = body + form.count + w + 1;
    if out.len() < length {
        return Err(Refusal::OutputTooShort);
    }
    let mut writer = Writer {
        out,
        start: w,
        spot: Spot { to: 0, before: 0 },
    };
    put_entries(&mut writer, &front, own, &rest);
    let count = below + 1 + usize::from(own.previous.is_some()) + rest.count;
    put_trailer(&mut writer, form, count);
    Ok(length)
}
