// What the commands write: a CP in plain words, what a flipped sign costs, the default DIL, the example.
use crate::asked::law_at;
use crate::cp_file::load_cp;
use console::{Ends, Failure, Trouble};
use description::{add_example, add_flip, add_record, example_record};
use dil::{DIL_OCTETS, SEGMENT_SYMBOLS, SEGMENTS};
use standard::Refusal;
use words::Text;

// Describes the CP file that word 1 names.
pub(crate) fn cp(e: Ends<'_>, words: &[u8]) -> Result<(), Failure> {
    let cp = load_cp(e, words)?;
    let mut room = [0; 8192];
    let mut text = Text::new(&mut room);
    add_record(&mut text, cp.record, cp.bit_count);
    e.write(text.as_slice())
}

// Says what one flipped sign costs with the CP file that word 1 names.
pub(crate) fn flip(e: Ends<'_>, words: &[u8]) -> Result<(), Failure> {
    let cp = load_cp(e, words)?;
    if cp.record.drn == 0 {
        return e.all_well(Err(Trouble::Refused(Refusal::FramesAtCleardown)));
    }
    let mut room = [0; 2048];
    let mut text = Text::new(&mut room);
    add_flip(&mut text, cp.record);
    e.write(text.as_slice())
}

// Writes the default DIL in the law that word 1 names.
pub(crate) fn dil(e: Ends<'_>, words: &[u8]) -> Result<(), Failure> {
    let law = law_at(e, words, 1)?;
    let mut octets = [0u8; DIL_OCTETS];
    // There is room for it, so it is not refused.
    let _ = dil::send_dil(law, &mut octets);
    e.write(&octets)?;
    e.tell(
        b"# segment~ of # octets sent",
        &[SEGMENTS as u64, SEGMENT_SYMBOLS as u64],
    );
    Ok(())
}

// Shows the example.
fn show(e: Ends<'_>) -> Result<(), Failure> {
    let mut room = [0; 8192];
    let mut text = Text::new(&mut room);
    add_example(&mut text);
    e.write(text.as_slice())
}

// Writes the CP of the example.
fn write_cp(e: Ends<'_>) -> Result<(), Failure> {
    let mut bytes = [0u8; 37];
    // The example keeps the rules of a CP, so it is not refused.
    let _ = cp::write_cp(example_record(), &mut bytes);
    e.write(&bytes)
}

// Shows the example, or writes its CP where word 1 is `cp`.
pub(crate) fn demo(e: Ends<'_>, words: &[u8]) -> Result<(), Failure> {
    if parts::part_count(words, 0) == 1 {
        return show(e);
    }
    let word = parts::nth_part(words, 0, 1);
    if !word.eq_ignore_ascii_case(b"cp") {
        return Err(e.fail_name(b"after demo there may be the word cp, not @", word));
    }
    write_cp(e)
}
