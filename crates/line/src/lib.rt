// Streams of any length through the frame sender, the frame receiver and the linear samples, call after call.
#![tactic(auto)]

mod linear;
mod receive;
mod send;
mod told;

ghost use Rattle.std.specs.Prelude.{◌≡◌, ◌+◌, ◌<◌, ◌≤◌, length};

use console::Trouble;
pub use linear::{Sampled, linear_stream};
pub use receive::{Received, receive_stream};
pub use send::{Sent, send_stream};
use standard::LineState;

// The frame place of a line state; it is at most 63 in a state that a call left.
pub(crate) fn place_of(state: LineState) -> u8
    ensures { result < 64 }
{
    state.place % 64
}

// Takes step after step: each reads, and answers whether the input goes on, or what ends the stream. A proved loop has to end: no run takes
// so many steps.
pub(crate) fn run<F: FnMut() -> Result<bool, Trouble>>(mut step: F) -> Result<(), Trouble>
    requires { F.IsAlwaysCallable step }
{
    for _ in 0..u64::MAX {
        if !step()? {
            break;
        }
    }
    Ok(())
}
