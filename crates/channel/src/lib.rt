// The control channel, frame by frame: which frame is a control frame, the six bits that it sends, and what is kept of those received.
#![tactic(auto)]

ghost use Rattle.std.specs.Prelude.{◌≡◌, cond, IfSome, Some, None, not, ◌&&◌, ◌||◌, ◌++◌, ◌+◌, ◌*◌, ◌/◌, ◌%◌, ◌^◌, ◌<◌};
ghost use Rattle.standard.specs.Bits.{bit_at, bits_in, field, bytes_of, nth, bits_of};
ghost use Rattle.standard.specs.Control.{sequence_bytes};
ghost use Rattle.standard.specs.Frame.{is_control, next_place};
ghost use Rattle.channel.specs.Line.{joined};

use mapping::Mapping;

// Whether a frame at this frame place is a control frame.
// It is a flag, here and below: the definitions of a frame go by cases of it.
pub fn is_control(on: bool, place: u32) -> bool
    ensures { result ≡ is_control on place }
{
    on & (place == 0)
}

// How many data bits a frame has.
pub fn width_of(mapping: Mapping, control: bool) -> usize
    ensures { result ≡ cond control mapping.k mapping.d }
{
    if control {
        return mapping.k;
    }
    mapping.d
}

// The frame place after a frame.
pub fn next_place(on: bool, place: u32) -> u32
    requires { place < 64 }
    ensures { (result ≡ next_place on place) × (result < 64) }
{
    if on {
        return (place + 1) % 64;
    }
    place
}

// The sequence place after a frame.
// `done < 16` is a clause, here and below: a type would stand around one number of `frame::Carried`, which `Bounded` bounds.
pub fn next_done(control: bool, done: u32) -> u32
    requires { done < 16 }
    ensures { (result ≡ cond control ((done + 1) % 16) done) × (result < 16) }
{
    if control {
        return (done + 1) % 16;
    }
    done
}

// Puts the sequence of `word` in where one starts.
// A flag beside the word and no Option: a call has a word in every frame, and each frame tells whether a sequence starts.
fn start(starts: bool, word: u64, sequence: &mut [u8; 12])
    ensures { sequence.new ≡ cond starts (sequence_bytes word) sequence.old }
{
    if starts {
        control::write_sequence(word, sequence);
    }
}

// The six bits that a control frame sends, after it has put the sequence in where one starts.
pub fn bits_to_send(
    control: bool,
    starts: bool,
    word: u64,
    done: u32,
    sequence: &mut [u8; 12],
) -> Option<u64>
    requires { done < 16 }
    ensures { (sequence.new ≡ cond starts (sequence_bytes word) sequence.old)
        × (result ≡ cond control (Some (field (bit_at sequence.new) (6 * done) 6)) None) × IfSome result (λ six. six < 64) }
{
    start(starts, word, sequence);
    if control {
        return Some(bits::field_at(sequence, 6 * (done as usize), 6));
    }
    None
}

// A frame's D bits on the line: those of a control frame are its six control bits and then its scrambled bits.
pub fn joined_bits(six: Option<u64>, bits: u64) -> u64
    requires { IfSome six (λ x. x < 64) × (bits < 2 ^ 48) }
    ensures { result ≡ joined six bits }
{
    match six {
        Some(six) => six | (bits << 6),
        None => bits,
    }
}

// The bits on the line that carry data.
pub fn data_of(control: bool, bits: u64) -> u64
    ensures { result ≡ cond control (bits / 64) bits }
{
    if control {
        return bits >> 6;
    }
    bits
}

// Keeps the six bits of a control frame, after those of the frames before it.
// A flag beside the six bits and no Option: each frame has six lowest bits, and its place tells whether they are the channel's.
pub fn keep(control: bool, done: u32, six: u64, sequence: &mut [u8; 12])
    requires { (done < 16) × (six < 64) }
    ensures { sequence.new ≡ cond control (bytes_of 12 (nth (bits_in (6 * done) sequence.old ++ bits_of 6 six)))
        sequence.old }
{
    if control {
        control::keep_bits(sequence, done as usize, six);
    }
}

// Whether a frame of the sequence is lost, after a frame that is good or marked.
pub fn lost_after(control: bool, starts: bool, good: bool, lost: bool) -> bool
    ensures { result ≡ cond control (not good || (lost && not starts)) lost }
{
    if control {
        return !good | (lost & !starts);
    }
    lost
}
