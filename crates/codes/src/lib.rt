// An outcome in one number, as interfaces hand it out.
#![tactic(auto)]

ghost use Rattle.std.specs.Prelude.{◌≡◌};
ghost use Rattle.standard.specs.Refusals.{refusal_answer, outcome_answer};
ghost use Rattle.codes.specs.Coded.{coded};

use standard::Refusal;

// A refusal in one number.
// The numbers are the C interface's. A `From` for u32 could stand in `standard` alone, whose readers need no numbers.
fn code_of_refusal(x: Refusal) -> u32
    ensures { result ≡ coded (refusal_answer x) }
{
    match x {
        Refusal::CountExceedsBytes => 1,
        Refusal::CountTooSmall => 2,
        Refusal::SyncBroken => 3,
        Refusal::IndexTooLarge => 4,
        Refusal::LengthWrong => 5,
        Refusal::StartBitSet => 6,
        Refusal::CrcMismatch => 7,
        Refusal::FixedBitWrong => 8,
        Refusal::DrnTooLarge => 9,
        Refusal::GrantedBelowFullRate => 10,
        Refusal::ProductTooSmall => 11,
        Refusal::MaskAboveIndices => 12,
        Refusal::FramesAtCleardown => 13,
        Refusal::HistoryTooLarge => 14,
        Refusal::TooManyFrames => 15,
        Refusal::InputTooShort => 16,
        Refusal::OutputTooShort => 17,
        Refusal::DoubtfulTooLarge => 18,
        Refusal::PlaceTooLarge => 19,
        Refusal::FileBroken => 22,
        Refusal::SettingMissing => 23,
        Refusal::TooManyJunctions => 24,
        Refusal::IntervalEmpty(i) => 25 + 0x100_0000 * (i as u32),
        Refusal::RateOrSpacingOutside => 26,
        Refusal::NoMask => 27,
        Refusal::SumExceedsCeiling => 28,
    }
}

// An outcome in one number: 0 where nothing is refused.
pub fn code_of<T: Drop>(o: Result<T, Refusal>) -> u32
    ensures { result ≡ coded (outcome_answer o) }
{
    match o {
        Ok(_) => 0,
        Err(x) => code_of_refusal(x),
    }
}
