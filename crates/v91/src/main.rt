// The V.91 line codec at the command line, over the proved entries. `v91 help` says what it takes.
// The program always ends with status 0. Its last line on standard error is `v91: ok` where all that was asked is done, else `v91: failed`,
// and the lines before it say why; `bin/v91` ends with a status by that line.
#![tactic(auto)]

mod asked;
mod begin;
mod cp_file;
mod junctions;
mod output;
mod planner;
mod script;
mod stream;

use console::{Ends, Failure, standard_ends, take_words};
use parts::named;

// Says how the program is used.
fn help(e: Ends<'_>) -> Result<(), Failure> {
    e.write(
        b"v91: the V.91 line codec
  v91 cp FILE                           a CP sequence in plain words
  v91 start CPFILE LAW > octets         the CP and E_s to the line, an octet for each bit, as they come before data
  v91 send CPFILE LAW < data > octets   data to the line; zero bits fill the last frame
  v91 send CPFILE LAW exact             the same, but bits at the end that fill no frame are not sent
  v91 send CPFILE LAW start             the same, but it begins in the line state that v91 start CPFILE LAW leaves
  v91 send CPFILE LAW control           the same, but the octets begin with a control frame, and the control channel is on;
                                        cleardown and retrain after that ask for it, and BITS, up to 54 digits 0 and 1, are its data
  v91 receive CPFILE LAW < octets > data
  v91 receive CPFILE LAW BYTES          the same, but no more than so many bytes of data
  v91 receive CPFILE LAW cold           the same, but it begins cold: the first 24 bits are doubtful
  v91 receive CPFILE LAW start          the same, but the octets are to begin with those of v91 start CPFILE LAW, and it finds the line
                                        state from them
  v91 receive CPFILE LAW control        the same, but the octets are to begin with a control frame, and it says what the channel says
  v91 linear LAW < octets > text        linear samples, one a line
  v91 dil LAW > octets                  the default DIL, V.91's learning sequence: 1,500 octets
  v91 plan K LAW SPACING CEILING        the mask for K that keeps SPACING with the least sum of squares, and a picture of it
  v91 plan K LAW SPACING CEILING svg > FILE, or cp > FILE: the picture as a drawing, or the CP with this mask
  v91 flip CPFILE                       which data bits change where one octet comes with the other sign, for each interval
  v91 settings FILE new                 a settings file, which keeps the CPs of up to 400 junctions; FILE must not be there yet
  v91 settings FILE new 2               the same, but of version 2 from the start; one of version 1 becomes that with its 41st junction
  v91 settings FILE list                a table of its junctions
  v91 settings FILE put JUNCTION CPFILE the CP as the setting of a junction; the one before is kept
  v91 settings FILE back JUNCTION       the setting of a junction and the one before it exchanged
  v91 settings FILE show JUNCTION       the setting of a junction in plain words
  v91 settings FILE show JUNCTION cp > CPFILE   the setting of a junction as a CP
  v91 demo                              an example: a CP and E_s, 63 bits sent and received, and one octet damaged
  v91 demo cp > FILE                    the CP of the example
  v91 run FILE                          the commands in FILE, one a line, each with its own < FILE and > FILE
  v91 help, v91 --version
LAW is mu or a (ulaw, alaw). K is 15 to 42, SPACING 1 to 65535, and CEILING the most that the sum may be.
A CP file has 37, 54, 71, 88, 105 or 122 bytes. JUNCTION is 0 to 65535.
The word progress after LAW has send, receive and linear show how far they are, as they do where standard error is a terminal.
The last line on standard error is `v91: ok` or `v91: failed`; bin/v91 ends with status 0 or 1 by it.
",
    )
}

// The commands but for run, which a file of commands has not.
#[derive(Clone, Copy)]
enum Command {
    Cp,
    Start,
    Send,
    Receive,
    Linear,
    Dil,
    Plan,
    Flip,
    Demo,
    Settings,
    Help,
    Version,
}

const COMMANDS: [(&[u8], Command); 14] = [
    (b"cp", Command::Cp),
    (b"start", Command::Start),
    (b"send", Command::Send),
    (b"receive", Command::Receive),
    (b"linear", Command::Linear),
    (b"dil", Command::Dil),
    (b"plan", Command::Plan),
    (b"flip", Command::Flip),
    (b"demo", Command::Demo),
    (b"settings", Command::Settings),
    (b"help", Command::Help),
    (b"--help", Command::Help),
    (b"-h", Command::Help),
    (b"--version", Command::Version),
];

impl Command {
    // The fewest and the most words of a command, its own among them.
    fn word_counts(self) -> (usize, usize) {
        match self {
            Command::Cp | Command::Dil | Command::Flip => (2, 2),
            Command::Start => (3, 3),
            Command::Send => (3, 10),
            Command::Receive => (3, 8),
            Command::Linear => (2, 3),
            Command::Plan => (5, 6),
            Command::Demo => (1, 2),
            Command::Settings => (3, 5),
            Command::Help | Command::Version => (0, usize::MAX),
        }
    }
}

// Runs the command that the first word names; says so where it names none.
pub(crate) fn run_command(e: Ends<'_>, words: &[u8]) -> Result<(), Failure> {
    let word = parts::nth_part(words, 0, 0);
    let command = named(&COMMANDS, word).ok_or_else(|| e.fail_name(
        b"there is no command @; v91 help says what there are",
        word,
    ))?;
    let (least, most) = command.word_counts();
    e.has(words, least, most)?;
    match command {
        Command::Cp => output::cp(e, words),
        Command::Start => begin::start(e, words),
        Command::Send => stream::send(e, words),
        Command::Receive => stream::receive(e, words),
        Command::Linear => stream::linear(e, words),
        Command::Dil => output::dil(e, words),
        Command::Plan => planner::plan(e, words),
        Command::Flip => output::flip(e, words),
        Command::Demo => output::demo(e, words),
        Command::Settings => junctions::settings(e, words),
        Command::Help => help(e),
        Command::Version => e.write(b"v91 8\n"),
    }
}

// Runs the command line, or says how the program is used where it has no word.
fn run_words(e: Ends<'_>, words: &[u8]) -> Result<(), Failure> {
    if words.is_empty() {
        return help(e);
    }
    if parts::nth_part(words, 0, 0).eq_ignore_ascii_case(b"run") {
        e.has(words, 2, 2)?;
        return script::run(e, words);
    }
    run_command(e, words)
}

// Runs the command of the command line.
fn run_all(e: Ends<'_>) -> Result<(), Failure> {
    let mut room = [0; 16384];
    let words = take_words(e.rt, &mut room);
    if words.at == 16384 {
        return Err(e.fail(
            b"the command line is too long; its words have 16,383 bytes at most",
            &[],
        ));
    }
    run_words(e, words.as_slice())
}

// Says whether all that was asked is done.
pub(crate) fn tell_done(e: Ends<'_>, done: Result<(), Failure>) {
    e.tell(if done.is_ok() { b"ok" } else { b"failed" }, &[]);
}

fn main(rt: HostRuntime) {
    let e = standard_ends(rt);
    tell_done(e, run_all(e));
}
