// The program's example: a CP is written and read, sent with E_s, then 63 bits are sent and received, and again with one octet damaged on
// the line.
ghost use Rattle.std.specs.Prelude.{◌≡◌, ◌≤◌, length};
ghost use Rattle.theorems_cp.specs.Examples.{common};

use crate::add_record;
use standard::{Law, LineState, Record, Refusal};
use streams::fresh_state;
use words::Text;

// The record of document 01's examples: Ucodes 0 to 5 in one mask for all intervals, drn 1.
pub fn example_record() -> Record
    ensures { result ≡ common }
{
    Record {
        granted: false,
        drn: 1,
        acknowledge: false,
        index: [0; 6],
        mask: [0x3f, 0, 0, 0, 0, 0, 0, 0, 0, 0, 0, 0],
    }
}

// Adds a space and bytes in hexadecimal.
fn add_hex(text: &mut Text<'_>, bytes: &[u8])
    requires { length bytes.now ≤ 64 }
    ensures { length text.new.bytes.now ≡ length text.old.bytes.now }
{
    let mut digits = [0; 128];
    let n = text::to_hex(bytes, &mut digits);
    text.add_name(b" @", &digits[..n]);
}

// Adds the CP, and what its reader makes of it.
fn add_cp(text: &mut Text<'_>) -> Result<(), Refusal>
    ensures { length text.new.bytes.now ≡ length text.old.bytes.now }
{
    let mut bytes = [0; 37];
    let bit_count = cp::write_cp(example_record(), &mut bytes)?;
    let record = cp::read_cp(&bytes, bit_count)?;
    text.add_values(
        b"A CP sequence, as the far end sends it, in # bytes:\n ",
        &[37],
    );
    add_hex(text, &bytes);
    text.add_values(b"\nWhat it says:\n", &[]);
    add_record(text, record, bit_count);
    Ok(())
}

// Adds octets, six a group.
fn add_groups(text: &mut Text<'_>, octets: &[u8])
    ensures { length text.new.bytes.now ≡ length text.old.bytes.now }
{
    for group in octets.chunks(6) {
        add_hex(text, group);
    }
}

// What is received of three frames: their bits, and the mark of each.
#[derive(Clone, Copy)]
struct Received {
    bytes: [u8; 8],
    marks: [u8; 3],
}

// Receives three frames of octets from a line state on, with the control channel off.
fn receive_three(mut state: LineState, octets: &[u8; 18]) -> Result<Received, Refusal> {
    let mut bytes = [0; 8];
    let mut marks = [0; 3];
    codec::receive(
        example_record(),
        Law::Mu,
        3,
        false,
        &mut state,
        octets,
        &mut bytes,
        &mut marks,
    )?;
    Ok(Received { bytes, marks })
}

// Adds a title, three frames of octets and what is received of them from a line state on.
// The state and the octets go with a text, here and below: a struct of them would be made in `add_run` and taken apart in each.
fn add_received(
    text: &mut Text<'_>,
    title: &[u8],
    state: LineState,
    octets: &[u8; 18],
) -> Result<Received, Refusal>
    ensures { length text.new.bytes.now ≡ length text.old.bytes.now }
{
    text.add_values(title, &[]);
    add_groups(text, octets);
    let received = receive_three(state, octets)?;
    text.add_values(
        b"\nWhat the receiver makes of them, and the mark of each frame:\n ",
        &[],
    );
    add_hex(text, &received.bytes);
    text.add_values(b"\n  # # #\n", &received.marks.map(u64::from));
    Ok(received)
}

// Adds the frames as they come in undamaged.
fn add_good(
    text: &mut Text<'_>,
    state: LineState,
    octets: &[u8; 18],
    sent: &[u8; 8],
) -> Result<(), Refusal>
    ensures { length text.new.bytes.now ≡ length text.old.bytes.now }
{
    let received = add_received(
        text,
        b"63 one bits, sent from there on in 3 frames of six PCM octets each, mu-law:\n ",
        state,
        octets,
    )?;
    let wrong = unaligned::differing(sent, &received.bytes, 0, 63) as u64;
    let template: &[u8] = if wrong == 0 {
        b"all 63 bits as sent\n"
    } else {
        b"# of 63 bits not as sent\n"
    };
    text.add_values(template, &[wrong]);
    Ok(())
}

// Adds what a marked frame 0 does to the bits.
fn add_doubt(text: &mut Text<'_>, sent: &[u8; 8], received: Received)
    ensures { length text.new.bytes.now ≡ length text.old.bytes.now }
{
    let interval = u64::from(received.marks[0]).wrapping_sub(1);
    let doubtful = unaligned::differing(sent, &received.bytes, 21, 24) as u64;
    text.add_values(
        b"frame 0 is marked: interval # is outside its mask; its bits, 0 to 20, are given as zeros
bits 21 to 44, the 24 after it, are doubtful: # of them are not as sent
",
        &[interval, doubtful],
    );
    let wrong = unaligned::differing(sent, &received.bytes, 45, 18) as u64;
    let template: &[u8] = if wrong == 0 {
        b"bits 45 to 62 are as sent again\n"
    } else {
        b"# of bits 45 to 62 are not as sent\n"
    };
    text.add_values(template, &[wrong]);
}

// Adds the frames with the third octet damaged.
fn add_damaged(
    text: &mut Text<'_>,
    state: LineState,
    octets: &[u8; 18],
    sent: &[u8; 8],
) -> Result<(), Refusal>
    ensures { length text.new.bytes.now ≡ length text.old.bytes.now }
{
    let mut damaged = *octets;
    damaged[2] = 0x80;
    let received = add_received(
        text,
        b"The same, but the third octet comes in as 80 (Ucode 127, which is in no mask):\n ",
        state,
        &damaged,
    )?;
    add_doubt(text, sent, received);
    Ok(())
}

// Adds 63 one bits, sent from the line state that was left and received from the one that was found, and received again with one octet
// damaged.
fn add_run(text: &mut Text<'_>, mut left: LineState, found: LineState) -> Result<(), Refusal>
    ensures { length text.new.bytes.now ≡ length text.old.bytes.now }
{
    let sent = [0xff, 0xff, 0xff, 0xff, 0xff, 0xff, 0xff, 0x7f];
    let mut octets = [0; 18];
    codec::send(
        example_record(),
        Law::Mu,
        3,
        false,
        0,
        &mut left,
        &sent,
        &mut octets,
    )?;
    add_good(text, found, &octets, &sent)?;
    add_damaged(text, found, &octets, &sent)
}

// Adds the last 24 octets of the CP and E_s, and the line state found from them.
fn add_start(text: &mut Text<'_>, octets: &[u8; 306], found: LineState)
    ensures { length text.new.bytes.now ≡ length text.old.bytes.now }
{
    text.add_values(
        b"Its bits and the twelve zero bits of E_s, sent in # octets, mu-law; the last 24 of them:\n ",
        &[306],
    );
    add_groups(text, &octets[282..]);
    text.add_values(
        b"\nThe line state that the receiver finds from these: history #, last sign #\n",
        &[found.history as u64, found.sign as u64],
    );
}

// Adds the CP and E_s as they are sent and heard, and the frames after them.
fn add_line(text: &mut Text<'_>) -> Result<(), Refusal>
    ensures { length text.new.bytes.now ≡ length text.old.bytes.now }
{
    let mut left = fresh_state();
    let mut octets = [0; 306];
    start::send_cp(example_record(), Law::Mu, &mut left, &mut octets)?;
    let mut found = fresh_state();
    start::find_state(&octets, &mut found)?;
    add_start(text, &octets, found);
    add_run(text, left, found)
}

// Adds the steps of the example.
fn add_steps(text: &mut Text<'_>) -> Result<(), Refusal>
    ensures { length text.new.bytes.now ≡ length text.old.bytes.now }
{
    add_cp(text)?;
    add_line(text)
}

// Adds the example.
pub fn add_example(text: &mut Text<'_>)
    ensures { length text.new.bytes.now ≡ length text.old.bytes.now }
{
    // The example's own record is refused nowhere.
    let _ = add_steps(text);
}
