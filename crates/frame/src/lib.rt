// What a call carries from one data frame to the next.
#![tactic(auto)]

ghost use Rattle.std.specs.Prelude.{◌≡◌, ◌<◌, ◌^◌};
ghost use Rattle.standard.specs.Frame.{doubtful_after};
ghost use Rattle.frame.specs.Parts.{state_of, Bounded};

use coding::scrambler::turn;
use standard::LineState;

// A line state on its way through a call, but for the sequence's bits: the last sign, its history in the order of time, how many coming
// data bits are doubtful, the frame place, whether a frame of the sequence was lost, and the sequence place. In this order the compiler
// keeps them apart. The limits `Bounded` are no invariant of the type, since `carry` takes line states of any place.
#[derive(Clone, Copy)]
pub struct Carried {
    pub sign: bool,
    pub past: u32,
    pub doubtful: u8,
    pub place: u32,
    pub lost: bool,
    pub done: u32,
}

// A line state, to be carried.
pub fn carry(state: LineState) -> Carried
    requires { state.history < 2 ^ 23 }
    ensures { (state_of result state.sequence ≡ state) × (result.past < 2 ^ 23) }
{
    Carried {
        past: turn(state.history),
        sign: state.sign,
        doubtful: state.doubtful,
        place: state.place as u32,
        done: state.done as u32,
        lost: state.lost,
    }
}

// The line state that is carried, with the sequence's bits.
pub fn state_of(carried: Carried, sequence: [u8; 12]) -> LineState
    requires { Bounded carried }
    ensures { result ≡ state_of carried sequence }
{
    LineState {
        history: turn(carried.past),
        sign: carried.sign,
        doubtful: carried.doubtful,
        place: carried.place as u8,
        done: carried.done as u8,
        sequence,
        lost: carried.lost,
    }
}

// How many coming data bits are doubtful after a frame of so many bits, good or marked, where so many are before it.
pub fn doubtful_after(width: usize, good: bool, before: u8) -> u8
    ensures { result ≡ doubtful_after width good before }
{
    if !good {
        return 24;
    }
    if before as usize <= width {
        return 0;
    }
    before - width as u8
}
