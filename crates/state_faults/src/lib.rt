// What a line state is refused for.
#![tactic(auto)]

ghost use Rattle.std.specs.Prelude.{◌≡◌};
ghost use Rattle.standard.specs.First.{first};
ghost use Rattle.standard.specs.Refusals.{outcome_answer, state_tests};

use standard::{LineState, Refusal};

// Refusals 14, 18 and 19.
pub fn state_fault(state: LineState) -> Result<(), Refusal>
    ensures { outcome_answer result ≡ first (state_tests state) }
{
    if 0x80_0000 <= state.history {
        return Err(Refusal::HistoryTooLarge);
    }
    if 24 < state.doubtful {
        return Err(Refusal::DoubtfulTooLarge);
    }
    if (63 < state.place) | (15 < state.done) {
        return Err(Refusal::PlaceTooLarge);
    }
    Ok(())
}
