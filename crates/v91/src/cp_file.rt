// The CP of a file, and what is said where it is refused.
ghost use Rattle.std.specs.Prelude.{◌≤◌};

use console::{Ends, Failure};
use constellation::{k_of, largest_index};
use standard::{Record, Refusal};

// The bit count of a CP file: its length in bits is rounded up to whole bytes, so the length of the CP for each g is told from its bytes.
// `rules::bit_count_of` is for the bytes of a settings file; here any other length is counted as it is, and the reader refuses it.
fn bit_count_of(bytes: usize) -> usize
    requires { bytes ≤ 4096 }
{
    match bytes {
        37 => 294,
        54 => 426,
        71 => 564,
        88 => 702,
        105 => 834,
        122 => 972,
        _ => 8 * bytes,
    }
}

// The bytes of a CP with masks 0 to g.
fn bytes_for(g: u8) -> u64 {
    if 5 < g {
        return 0;
    }
    layout::byte_count(g as usize) as u64
}

// What is said where a CP file of so many bytes is refused: what was found, and what a CP has.
fn sentence_of(x: Refusal, count: usize) -> &'static [u8] {
    match x {
        _ if count == 0 => b"@ is empty; a CP has 37, 54, 71, 88, 105 or 122 bytes (refusal 2)",
        Refusal::CountTooSmall => b"@ has # byte~; a CP has 37, 54, 71, 88, 105 or 122 (refusal 2)",
        Refusal::SyncBroken => b"@ is no CP: it does not begin with 17 one bits (refusal 3)",
        Refusal::IndexTooLarge => b"@ has the interval index #; each is 5 at most (refusal 4)",
        Refusal::LengthWrong if count == 4096 =>
            b"@ has # bytes or more; a CP whose largest interval index is # has # (refusal 5)",
        Refusal::LengthWrong =>
            b"@ has # bytes; a CP whose largest interval index is # has # (refusal 5)",
        Refusal::StartBitSet =>
            b"@ is damaged: a start bit is 1, and each is 0 in a CP (refusal 6)",
        Refusal::CrcMismatch => b"@ is damaged: its CRC does not match its bits (refusal 7)",
        Refusal::FixedBitWrong =>
            b"@ is no CP of V.91: bit 19 is 0, or one of bits 30 to 32 and 128 is 1 (refusal 8)",
        Refusal::DrnTooLarge => b"@ has drn #; the largest is 28 (refusal 9)",
        Refusal::GrantedBelowFullRate =>
            b"@ has granted 1 with drn #; granted goes with drn 28 alone (refusal 10)",
        Refusal::ProductTooSmall =>
            b"@ has too few points for drn #: M0 x M1 x M2 x M3 x M4 x M5 is below 2^# (refusal 11)",
        Refusal::IntervalEmpty(_) =>
            b"@ has no point in interval #: its mask is empty, and drn # needs points in each (refusal 25)",
        _ => b"@ is refused",
    }
}

// The numbers that are said with it: those of `sentence_of`, and zeros behind them.
fn numbers_of(x: Refusal, r: Record, count: usize) -> [u64; 3] {
    let g = largest_index(r);
    match x {
        Refusal::CountTooSmall => [count as u64, 0, 0],
        Refusal::IndexTooLarge => [g as u64, 0, 0],
        Refusal::LengthWrong => [count as u64, g as u64, bytes_for(g)],
        Refusal::IntervalEmpty(interval) => [interval as u64, r.drn as u64, 0],
        _ => [r.drn as u64, k_of(r) as u64, 0],
    }
}

// The CP of a file: its bit count and its record.
#[derive(Clone, Copy)]
pub(crate) struct CpFile {
    pub(crate) bit_count: usize,
    pub(crate) record: Record,
}

// Says what a CP file with these first bytes is refused for.
fn refuse(e: Ends<'_>, name: &[u8], bytes: &[u8], x: Refusal) -> Failure {
    let count = bytes.len();
    let numbers = numbers_of(x, layout::record_in(bytes), count);
    e.fail_values(sentence_of(x, count), &numbers, name)
}

// Reads a CP file; says what is wrong with it. Of a longer file the first 4,096 bytes are read: any length above 122 bytes gets the same
// refusal.
pub(crate) fn load_file(e: Ends<'_>, name: &[u8]) -> Result<CpFile, Failure> {
    // A buffer and a count: the program uses no heap, so nothing has to be said of memory that runs out.
    let mut bytes = [0u8; 4096];
    let count = e.fill_from(name, &mut bytes).map_err(|_| {
        e.fail(
            b"give the name of a file that holds a CP; v91 demo cp > FILE writes an example",
            &[],
        )
    })?;
    let bytes = &bytes[0..count];
    let bit_count = bit_count_of(count);
    let record = cp::read_cp(bytes, bit_count).map_err(|x| refuse(e, name, bytes, x))?;
    Ok(CpFile { bit_count, record })
}

// Reads the CP file that word 1 names.
pub(crate) fn load_cp(e: Ends<'_>, words: &[u8]) -> Result<CpFile, Failure> {
    load_file(e, parts::nth_part(words, 0, 1))
}
