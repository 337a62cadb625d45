// V.91 Table 3, the control channel's sequence of 96 bits in 12 bytes: a slip detection pattern in bits 0 to 15, the orders to clear down
// and to retrain in 16 and 17, secondary channel data in 24 to 77 and a CRC in 78 to 93. It is written whole, kept as its bits come, six at
// a time, and judged when all have come.
#![tactic(auto)]

ghost use Rattle.std.specs.Prelude.{◌≡◌, ◌++◌, ◌+◌, ◌*◌, ◌%◌, ◌^◌, ◌<◌, ◌≤◌};
ghost use Rattle.standard.specs.Bits.{bit_at, bits_in, bits_of, bytes_of, nth};
ghost use Rattle.standard.specs.Control.{sequence_crc, sequence_bytes, judged};

use standard::Said;

// The slip detection pattern, '0111011111111010', its left digit lowest.
const SLIP_PATTERN: u64 = 0x5fee;

// The CRC of bits 16 to 77.
fn crc_in(sequence: &[u8; 12]) -> u16
    ensures { result ≡ sequence_crc (bit_at sequence.now) }
{
    crc::crc_from(0xffff, sequence, 16, 62)
}

// Writes a sequence: bits 0 and 1 of `word` are its bits 16 and 17, bits 2 to 55 its bits 24 to 77. Bits 18 to 23, 94 and 95 are zeros.
pub fn write_sequence(word: u64, sequence: &mut [u8; 12])
    ensures { sequence.new ≡ sequence_bytes word }
{
    bits::put_field(sequence, 0, 16, SLIP_PATTERN);
    bits::put_field(sequence, 16, 8, word % 4);
    bits::put_field(sequence, 24, 54, word >> 2);
    let crc = crc_in(sequence) as u64;
    bits::put_field(sequence, 78, 18, crc);
}

// The n lowest bits of a word, six bits above them, and zeros.
fn with_six(word: u64, n: usize, six: u64) -> u64
    requires { (n ≤ 58) × (six < 64) }
    ensures { result ≡ six * 2 ^ n + word % 2 ^ n }
{
    (word % (1u64 << n)) | (six << n)
}

// Puts the six bits of a control frame after those of the `done` frames before it; zeros follow them. The first word has bits 0 to 63, the
// last one bits 32 to 95.
pub fn keep_bits(sequence: &mut [u8; 12], done: usize, six: u64)
    requires { (done < 16) × (six < 64) }
    ensures { sequence.new ≡ bytes_of 12 (nth (bits_in (6 * done) sequence.old ++ bits_of 6 six)) }
{
    let at = 6 * done;
    let first = bits::word_at(sequence, 0);
    let last = bits::word_at(sequence, 4);
    if at < 48 {
        bits::put_word(sequence, 4, 0);
        bits::put_word(sequence, 0, with_six(first, at, six));
        return;
    }
    bits::put_word(sequence, 4, with_six(last, at - 32, six));
}

// What a receiver says of a sequence: the first that is so of frame lost, pattern wrong and CRC wrong, or the bits that a sender hands in.
pub fn judge(lost: bool, sequence: &[u8; 12]) -> Said
    ensures { result ≡ judged lost (bit_at sequence.now) }
{
    let pattern = bits::field_at(sequence, 0, 16);
    let sent = bits::field_at(sequence, 78, 16);
    let crc = crc_in(sequence) as u64;
    if lost {
        return Said::FrameLost;
    }
    if pattern != SLIP_PATTERN {
        return Said::PatternWrong;
    }
    if crc != sent {
        return Said::CrcWrong;
    }
    Said::Sequence(bits::field_at(sequence, 16, 2) + 4 * bits::field_at(sequence, 24, 54))
}
