// What one flipped sign costs, in plain words.
ghost use Rattle.std.specs.Prelude.{◌≡◌, length};

use crate::add_rate;
use constellation::k_of;
use standard::Record;
use words::Text;

// Adds the places of the data bits that change.
fn add_places(text: &mut Text<'_>, k: u32, i: u32)
    ensures { length text.new.bytes.now ≡ length text.old.bytes.now }
{
    for p in 0..flip::places_end(k, i) {
        if flip::changes(k, i, p) {
            text.add_values(b" #", &[p]);
        }
    }
}

// Adds what a flipped sign of interval i costs.
fn add_interval(text: &mut Text<'_>, k: u32, i: u32)
    ensures { length text.new.bytes.now ≡ length text.old.bytes.now }
{
    text.add_values(
        b"interval #: # bit~:",
        &[i as u64, flip::changed_count(k, i)],
    );
    add_places(text, k, i);
    text.add_values(b"\n", &[]);
}

// Adds what one of each interval costs.
fn add_each(text: &mut Text<'_>, k: u32)
    ensures { length text.new.bytes.now ≡ length text.old.bytes.now }
{
    for i in 0..6 {
        add_interval(text, k, i);
    }
}

// Adds the rate of a record, and what one flipped sign costs at it.
pub fn add_flip(text: &mut Text<'_>, r: Record)
    ensures { length text.new.bytes.now ≡ length text.old.bytes.now }
{
    let k = k_of(r) as u32;
    add_rate(text, r);
    text.add_values(
        b"one octet comes with the other sign; its frame and the two after it are good, and the control channel is off\n\
        no mark changes; of the data bits, counted from the first of that frame, these do\n",
        &[],
    );
    add_each(text, k);
}
