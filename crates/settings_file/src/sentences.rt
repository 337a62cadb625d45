// What is said of a settings file: what a call of it is refused for, and what it changed.
ghost use Rattle.std.specs.Prelude.{◌≡◌, length};

use crate::NamedFile;
use console::{Ends, Failure};
use description::add_rate_words;
use standard::{Record, Refusal};
use words::Text;

impl NamedFile<'_> {
    // Says what a call for a junction is refused for; in a going back a setting that is missing is the previous one. `back` picks a sentence and
    // no step, here and below.
    pub(crate) fn refuse(self, junction: u16, x: Refusal, back: bool) -> Failure {
        let NamedFile { e, name } = self;
        let junction = junction as u64;
        match x {
            Refusal::FileBroken => e.fail_name(
                b"@ is no settings file: it breaks the rules of one, or a CP in it is refused (refusal 22)",
                name,
            ),
            Refusal::SettingMissing if back => e.fail_values(
                b"@ has no previous setting for junction # (refusal 23)",
                &[junction],
                name,
            ),
            Refusal::SettingMissing => e.fail_values(
                b"@ has no setting for junction # (refusal 23)",
                &[junction],
                name,
            ),
            Refusal::TooManyJunctions => e.fail_values(
                b"@ has # junctions, the most there can be, so junction # cannot be put (refusal 24)",
                &[versions::version_two().most as u64, junction],
                name,
            ),
            _ => e.fail_name(b"@ is refused", name),
        }
    }

    // Says what a put or a going back is refused for, and that the file is not changed.
    pub(crate) fn refuse_change(self, junction: u16, x: Refusal, back: bool) -> Failure {
        self.refuse(junction, x, back);
        self.fail_as_it_was()
    }
}

// Adds what is changed for a junction: its current setting is put, or gone back to, and the one before it, where it has one, is kept.
fn add_changed(
    text: &mut Text<'_>,
    junction: u16,
    back: bool,
    current: Record,
    previous: Option<Record>,
)
    ensures { length text.new.bytes.now ≡ length text.old.bytes.now }
{
    text.add_values(
        if back {
            b"v91: junction #: back to "
        } else {
            b"v91: junction #: "
        },
        &[junction as u64],
    );
    add_rate_words(text, current);
    match previous {
        None => text.add_values(b" put, its first setting\n", &[]),
        Some(previous) => {
            text.add_values(if back { b", " } else { b" put, " }, &[]);
            add_rate_words(text, previous);
            text.add_values(b" kept as the previous setting\n", &[]);
        }
    }
}

// Says what is changed for a junction, whose settings are these then.
pub(crate) fn say_changed(
    e: Ends<'_>,
    junction: u16,
    back: bool,
    current: Record,
    previous: Option<Record>,
) {
    let mut room = [0; 256];
    let mut text = Text::new(&mut room);
    add_changed(&mut text, junction, back, current, previous);
    e.tell_text(text.as_slice());
}
