// Octets of any length from the line. What a read gives is received at once, whole frames of it; octets that make no frame and bits that
// fill no byte wait for more.
ghost use Rattle.std.specs.Prelude.{◌≡◌, ◌<◌, ◌≤◌, length};

use crate::told::Told;
use crate::{place_of, run};
use console::{Ends, Trouble, is_over};
use frame::doubtful_after;
use marks::Report;
use standard::{Law, LineState, Record, Refusal, Said};
use streams::{bits_in, ending, width_at};

// A stream between two calls: the line state, the octets at the front of the buffer that wait for more, the last eight bits received and
// how many of them wait for more, what is told, and the bytes still wanted. No record that was read has a drn above 28.
// `octets` is an array with a count, and no Vec: the program uses no heap.
#[derive(Drop)]
struct Receiver<'a> {
    e: Ends<'a>,
    r: Record,
    law: Law,
    control: bool,
    state: LineState,
    waiting: usize,
    last: u8,
    held: usize,
    told: Told,
    wanted: u64,
    octets: [u8; 6144],
    ghost rate: { r.drn ≤ 28 },
    ghost octets_wait: { waiting < 6 },
    ghost bits_wait: { held < 8 },
}

// What was received: what the marks come to, how many runs of marked frames were not told, how many coming bits are doubtful, the octets at
// the end that make no frame, the bits in a last byte that is not full, the bytes of data still wanted, and what ended it before the input
// did.
#[derive(Clone, Copy)]
pub struct Received {
    pub report: Report,
    pub untold: u64,
    pub coming: u8,
    pub waiting: usize,
    pub held: usize,
    pub wanted: u64,
    pub ended: Result<(), Trouble>,
}

// The frame of a call that begins in this line state with which the control sequence ends.
fn ending_of(state: LineState) -> usize {
    ending(place_of(state), state.done % 16)
}

// Writes `count` bytes of the data that begins at bit `at` of the bytes.
// A place and a count: the place is one of bits, and the bytes handed over lie across those of the buffer.
fn hand_over(e: Ends<'_>, bytes: &[u8], at: usize, count: usize) -> Result<(), Trouble>
    requires { (at ≤ 8) × (count ≤ 6144) }
{
    let mut room = [0u8; 6144];
    let out = &mut room[..count];
    unaligned::copy_bits(bytes, at, out);
    e.write_out(out)
}

impl Receiver<'_> {
    // Notes the marks of the frames of a call, which began in a line state, and what it says of the control sequence that ends in it.
    fn note_all(&mut self, before: LineState, said: Said, marks: &[u8])
        requires { length marks.now ≤ 1024 }
        ensures { (self.new.waiting ≡ self.old.waiting) × (self.new.held ≡ self.old.held) }
    {
        let last = ending_of(before);
        let place = place_of(before);
        let mut doubtful = before.doubtful;
        for (i, mark) in marks.iter().enumerate() {
            let width = width_at(self.r, self.control, place, i);
            self.told.note(self.e, width, doubtful, *mark);
            if i == last {
                self.told.end_sequence(self.e, said);
            }
            doubtful = doubtful_after(width, *mark == 0, doubtful);
        }
    }

    // After frames whose data begins with the second of `bytes`: hands over the bytes that are full and still wanted. The first of `bytes`
    // has the last eight bits of the frames before.
    fn after_frames(
        &mut self,
        before: LineState,
        said: Said,
        bytes: &[u8],
        marks: &[u8],
    ) -> Result<(), Trouble>
        requires { length marks.now ≤ 1024 }
        ensures { self.new.waiting ≡ self.old.waiting }
    {
        let bits = bits_in(self.r, self.control, place_of(before), marks.len());
        let total = self.held + bits;
        let count = self.wanted.min((total / 8) as u64);
        let written = hand_over(self.e, bytes, 8 - self.held, count as usize);
        self.last = unaligned::byte_at(bytes, bits);
        self.held = total % 8;
        self.wanted -= count;
        self.note_all(before, said, marks);
        written
    }

    // Receives frames from the front of the buffer, and hands over their data.
    fn receive_frames(&mut self, frames: usize) -> Result<(), Trouble>
        requires { frames ≤ 1024 }
        ensures { self.new.waiting ≡ self.old.waiting }
    {
        let mut bytes = [0u8; 6145];
        bytes[0] = self.last;
        let mut room = [0u8; 1024];
        let marks = &mut room[..frames];
        let before = self.state;
        let said = codec::receive(
            self.r,
            self.law,
            frames,
            self.control,
            &mut self.state,
            &self.octets,
            &mut bytes[1..],
            marks,
        )
        .map_err(Trouble::Refused)?;
        self.after_frames(before, said, &bytes, marks)
    }

    // Receives what the next read gives; whether the input goes on, and more is wanted.
    fn receive_some(&mut self) -> Result<bool, Trouble> {
        let count = self.e.read_some(&mut self.octets, self.waiting, 6144)?;
        if count == 0 {
            return Ok(false);
        }
        let end = self.waiting + count;
        let received = self.receive_frames(end / 6);
        self.waiting = end % 6;
        self.octets.copy_within(end - self.waiting..end, 0);
        self.told
            .meter
            .advance(self.e, count, self.told.report.frames);
        received?;
        Ok(self.wanted != 0)
    }

    // What comes of a stream, after so many bits are handed over in a last byte that is not full, none where there is none.
    fn sum_up(&mut self, held: usize, ended: Result<(), Trouble>) -> Received
        requires { held < 8 }
        ensures { (result.waiting < 6) × (result.held < 8) }
    {
        self.told.end_run(self.e, 0, false);
        self.told.meter.close(self.e);
        Received {
            report: self.told.report,
            untold: self.told.untold,
            coming: self.state.doubtful,
            waiting: self.waiting,
            held,
            wanted: self.wanted,
            ended,
        }
    }

    // Hands over the bits that fill no byte, and zeros behind them, where a byte is still wanted.
    fn finish(&mut self, ended: Result<(), Trouble>) -> Received
        ensures { (result.waiting < 6) × (result.held < 8) }
    {
        let held = self.held;
        if (held == 0) | (self.wanted == 0) | is_over(ended) {
            return self.sum_up(0, ended);
        }
        let last = hand_over(self.e, &[self.last], 8 - held, 1);
        self.wanted -= 1;
        self.sum_up(held, ended.and(last))
    }
}

// Nothing is received with a record that no CP has.
fn refused(state: LineState, wanted: u64) -> Received
    ensures { (result.waiting ≡ 0) × (result.held ≡ 0) }
{
    Received {
        report: Report::default(),
        untold: 0,
        coming: state.doubtful,
        waiting: 0,
        held: 0,
        wanted,
        ended: Err(Trouble::Refused(Refusal::DrnTooLarge)),
    }
}

// A stream that begins in a line state: no octet and no bit waits.
fn begun(
    e: Ends<'_>,
    r: Record,
    law: Law,
    control: bool,
    state: LineState,
    wanted: u64,
) -> Receiver<'_>
    requires { r.drn ≤ 28 }
    ensures { (result.waiting ≡ 0) × (result.held ≡ 0) }
{
    Receiver {
        e,
        r,
        law,
        control,
        state,
        waiting: 0,
        last: 0,
        held: 0,
        told: Told::begun(e.rt),
        wanted,
        octets: [0; 6144],
    }
}

// Receives the input to the output, frame after frame from a line state on, up to so many bytes of data.
pub fn receive_stream(
    e: Ends<'_>,
    r: Record,
    law: Law,
    control: bool,
    state: LineState,
    wanted: u64,
) -> Received
    ensures { (result.waiting < 6) × (result.held < 8) }
{
    if 28 < r.drn {
        return refused(state, wanted);
    }
    let mut receiver = begun(e, r, law, control, state, wanted);
    if wanted == 0 {
        return receiver.finish(Ok(()));
    }
    let ended = run(|| receiver.receive_some());
    receiver.finish(ended)
}
