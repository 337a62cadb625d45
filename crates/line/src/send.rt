// Data of any length to the line. Calls join on any bit: whole frames of what a read gives are sent at once, and the bits that fill no
// frame wait for more.
ghost use Rattle.std.specs.Prelude.{◌≡◌, ◌+◌, ◌*◌, ◌<◌, ◌≤◌, length, is_some};
ghost use Rattle.standard.specs.Frame.{call_bits};

use crate::{place_of, run};
use console::{Ends, Meter, Trouble, is_over};
use standard::{Law, LineState, Record, Refusal};
use std::num::wrapping_add_u64;
use streams::{bits_in, cut_into};

// A stream between two calls: the 56 bits of the sequences that it sends, where the control channel is on, the line state, the frames so
// far, and the bits that wait for more, which are the last ones of the bytes at the front of the buffer. No record that was read has a drn
// above 28.
// `bytes` is an array with a count, and no Vec: the program uses no heap.
#[derive(Drop)]
struct Sender<'a> {
    e: Ends<'a>,
    r: Record,
    law: Law,
    channel: Option<u64>,
    state: LineState,
    frames: u64,
    left: usize,
    meter: Meter,
    bytes: [u8; 6144],
    ghost rate: { r.drn ≤ 28 },
    ghost few: { left < 48 },
}

// What was sent: how many frames, the bits at the end that fill no frame and were not sent, or the zero bits that the last frame was filled
// with, and what ended it before the input did.
#[derive(Clone, Copy)]
pub struct Sent {
    pub frames: u64,
    pub left: usize,
    pub padding: usize,
    pub ended: Result<(), Trouble>,
}

// The bytes that so many bits at their end stand in.
fn bytes_for(bits: usize) -> usize
    requires { bits < 48 }
    ensures { (bits ≤ 8 * result) × (8 * result < bits + 8) }
{
    bits.div_ceil(8)
}

impl Sender<'_> {
    // Sends frames of the data that begins at bit `at` of the first `end` bytes; zero bits follow their end.
    fn send_frames(&mut self, frames: usize, at: usize, end: usize) -> Result<(), Trouble>
        requires { (frames ≤ 1024) × (at < 8) × (end ≤ 6144) }
        ensures { self.new.left ≡ self.old.left }
    {
        let mut room = [0u8; 6150];
        let shifted = &mut room[..end + 6];
        unaligned::copy_bits(&self.bytes[..end], at, shifted);
        let mut octets = [0u8; 6144];
        codec::send(
            self.r,
            self.law,
            frames,
            self.channel.is_some(),
            self.channel.unwrap_or(0),
            &mut self.state,
            shifted,
            &mut octets,
        )
        .map_err(Trouble::Refused)?;
        self.e.write_out(&octets[..6 * frames])
    }

    // Sends whole frames from this frame place on, with so many bytes that were read behind those that wait; the bits that fill no frame
    // wait at the front of the buffer.
    fn send_read(&mut self, place: u8, count: usize) -> Result<(), Trouble>
        requires { (place < 64) × (self.old.left + 8 * count ≤ call_bits self.old.r (is_some self.old.channel) place 1024)
            × (self.old.left + 8 * count ≤ 49152) }
    {
        let waiting = bytes_for(self.left);
        let end = waiting + count;
        let cut = cut_into(
            self.r,
            self.channel.is_some(),
            place,
            self.left + 8 * count,
            true,
        );
        let sent = self.send_frames(cut.frames, 8 * waiting - self.left, end);
        self.bytes.copy_within(end - bytes_for(cut.left)..end, 0);
        self.left = cut.left;
        self.frames = wrapping_add_u64(self.frames, cut.frames as u64);
        self.meter.advance(self.e, count, self.frames);
        sent
    }

    // Sends whole frames of what the next read gives; whether the input goes on.
    fn send_some(&mut self) -> Result<bool, Trouble> {
        let place = place_of(self.state);
        let room = bits_in(self.r, self.channel.is_some(), place, 1024) / 8;
        let start = bytes_for(self.left);
        let count = self.e.read_some(&mut self.bytes, start, room)?;
        if count == 0 {
            return Ok(false);
        }
        self.send_read(place, count)?;
        Ok(true)
    }

    // Sends the bits that wait, which fill no frame, with zero bits behind them; with `exact` they are left.
    fn send_rest(&mut self, exact: bool, ended: Result<(), Trouble>) -> Sent
        ensures { (result.left < 48) × (result.padding < 48) }
    {
        let waiting = bytes_for(self.left);
        let place = place_of(self.state);
        let cut = cut_into(self.r, self.channel.is_some(), place, self.left, exact);
        let last = self.send_frames(cut.frames, 8 * waiting - self.left, waiting);
        Sent {
            frames: wrapping_add_u64(self.frames, cut.frames as u64),
            left: cut.left,
            padding: cut.padding,
            ended: ended.and(last),
        }
    }
}

// Nothing more is sent, because of what ended it.
fn stopped(frames: u64, ended: Result<(), Trouble>) -> Sent
    ensures { (result.left ≡ 0) × (result.padding ≡ 0) }
{
    Sent {
        frames,
        left: 0,
        padding: 0,
        ended,
    }
}

// Sends the input to the output, frame after frame from a line state on; whole frames alone, or a last one that is filled with zero bits.
// The control channel is on where it has 56 bits to send in its sequences.
// `exact` is a flag, as `streams::cut_into` and the definition `CutInto` take it.
pub fn send_stream(
    e: Ends<'_>,
    r: Record,
    law: Law,
    channel: Option<u64>,
    state: LineState,
    exact: bool,
) -> Sent
    ensures { (result.left < 48) × (result.padding < 48) }
{
    if 28 < r.drn {
        return stopped(0, Err(Trouble::Refused(Refusal::DrnTooLarge)));
    }
    let mut sender = Sender {
        e,
        r,
        law,
        channel,
        state,
        frames: 0,
        left: 0,
        meter: Meter::begun(e.rt),
        bytes: [0; 6144],
    };
    let ended = run(|| sender.send_some());
    sender.meter.close(e);
    if is_over(ended) {
        return stopped(sender.frames, ended);
    }
    sender.send_rest(exact, ended)
}
