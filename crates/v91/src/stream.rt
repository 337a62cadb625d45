// The commands send, receive and linear: what they ask for, and what they say of it at the end.
use crate::asked::{Asked, asked_from, binary_in, law_at};
use crate::begin::{receiver_state, sender_state};
use crate::cp_file::load_cp;
use console::{Ends, Failure, is_over};
use line::{Received, Sent};
use streams::sequences_in;

// Says how many frames were sent, and the bits that were not or the zero bits in the last frame.
fn say_sent(e: Ends<'_>, s: Sent) {
    if s.left != 0 {
        e.tell(
            b"# frame~ sent; # bit~ of data at the end not sent, too few for a frame",
            &[s.frames, s.left as u64],
        );
    } else if s.padding != 0 {
        e.tell(
            b"# frame~ sent; # zero bit~ added to fill the last one",
            &[s.frames, s.padding as u64],
        );
    } else {
        e.tell(b"# frame~ sent", &[s.frames]);
    }
}

// Says how many control sequences so many frames have whole, and the control frames of one that they do not.
fn say_sequences(e: Ends<'_>, frames: u64) {
    let s = sequences_in(frames);
    if s.more == 0 {
        e.tell(b"# control sequence~ sent whole", &[s.whole]);
    } else {
        e.tell(
            b"# control sequence~ sent whole, and # control frame~ of one that is not",
            &[s.whole, s.more],
        );
    }
}

// Says what was sent where that is known, with its control sequences where the channel is on; an error where not all of it was.
fn sum_up_sent(e: Ends<'_>, s: Sent, control: bool) -> Result<(), Failure> {
    if !is_over(s.ended) {
        say_sent(e, s);
        if control {
            say_sequences(e, s.frames);
        }
    }
    e.all_well(s.ended)
}

// What is asked of send without the words that it does not take; with `control` it takes those for its sequences too.
fn taken_by_send(a: Asked) -> Asked {
    let taken = Asked {
        cold: false,
        other: false,
        ..a
    };
    if a.control {
        return taken;
    }
    Asked {
        cleardown: false,
        retrain: false,
        number: None,
        ..taken
    }
}

// The bits of the sequences of the control channel, where it is asked for; their data are zeros where there are no BITS.
fn channel_of(a: Asked) -> Option<u64> {
    let word = u64::from(a.cleardown) | u64::from(a.retrain) << 1 | a.number.unwrap_or(0) << 2;
    a.control.then_some(word)
}

// The same, but that a stream shows how far it is where that is asked for.
fn showing(e: Ends<'_>, a: Asked) -> Ends<'_> {
    Ends {
        shows: e.shows | a.progress,
        ..e
    }
}

// Sends as the words ask: CPFILE, LAW, and then `exact`, `progress`, `start`, `control`, `cleardown`, `retrain` and BITS where they are
// wanted.
pub(crate) fn send(e: Ends<'_>, words: &[u8]) -> Result<(), Failure> {
    let law = law_at(e, words, 2)?;
    let a = asked_from(words, 3, binary_in);
    if a != taken_by_send(a) {
        return Err(e.fail(
            b"after LAW send takes the words exact, progress, start and control alone, and after control cleardown, retrain and up to 54 \
            binary digits",
            &[],
        ));
    }
    let r = load_cp(e, words)?.record;
    let state = sender_state(r, law, a.start);
    let sent = line::send_stream(showing(e, a), r, law, channel_of(a), state, a.exact);
    sum_up_sent(e, sent, a.control)
}

// Says a sentence where the number is not 0.
fn tell_some(e: Ends<'_>, number: u64, template: &[u8]) {
    if number != 0 {
        e.tell(template, &[number]);
    }
}

// Says how many control frames so many frames have of a control sequence that they do not have whole.
fn say_part(e: Ends<'_>, frames: u64) {
    tell_some(
        e,
        sequences_in(frames).more,
        b"# control frame~ received of a sequence that is not whole",
    );
}

// Says what was received, with its last control sequence where the channel is on.
fn say_received(e: Ends<'_>, s: Received, control: bool) {
    let report = s.report;
    tell_some(e, s.untold, b"# more run~ of marked frames");
    e.tell(
        b"# frame~ received, # of them marked",
        &[report.frames, report.marked],
    );
    if (report.marked != 0) | (report.doubtful != 0) {
        e.tell(b"# bit~ of good frames doubtful in all", &[report.doubtful]);
    }
    e.tell(b"# coming bit~ to distrust", &[s.coming as u64]);
    if control {
        say_part(e, report.frames);
    }
    tell_some(
        e,
        s.waiting as u64,
        b"# octet~ at the end too few for a frame",
    );
    tell_some(e, s.held as u64, b"# bit~ of data in the last byte");
}

// What is asked of receive without the words that it does not take.
fn taken_by_receive(a: Asked) -> Asked {
    Asked {
        exact: false,
        cleardown: false,
        retrain: false,
        other: false,
        ..a
    }
}

// Receives as the words ask: CPFILE, LAW, and then BYTES, `cold`, `control`, `start` and `progress` where they are wanted.
pub(crate) fn receive(e: Ends<'_>, words: &[u8]) -> Result<(), Failure> {
    let law = law_at(e, words, 2)?;
    let a = asked_from(words, 3, parts::number_in);
    if a != taken_by_receive(a) {
        return Err(e.fail(
            b"after LAW receive takes BYTES, a number of 1 to 18 digits, and the words cold, control, start and progress alone",
            &[],
        ));
    }
    let cp = load_cp(e, words)?;
    let state = receiver_state(e, cp.bit_count, law, a.start, a.cold)?;
    let wanted = a.number.unwrap_or(u64::MAX);
    let got = line::receive_stream(showing(e, a), cp.record, law, a.control, state, wanted);
    say_received(e, got, a.control);
    e.all_well(got.ended)?;
    if a.number.is_some() & (got.wanted != 0) {
        return Err(e.fail(b"the input ended # byte~ of data too early", &[got.wanted]));
    }
    Ok(())
}

// Writes linear samples as the words ask: LAW, and then `progress` where it is wanted.
pub(crate) fn linear(e: Ends<'_>, words: &[u8]) -> Result<(), Failure> {
    let law = law_at(e, words, 1)?;
    let a = asked_from(words, 2, parts::number_in);
    let taken = Asked {
        progress: a.progress,
        ..Asked::default()
    };
    if a != taken {
        return Err(e.fail(b"after LAW linear takes the word progress alone", &[]));
    }
    let sampled = line::linear_stream(showing(e, a), law);
    e.all_well(sampled.ended)
}
