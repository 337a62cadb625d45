// The types that the entries take and answer. What they mean is defined in specs/.
#![tactic(auto)]

// The PCM law of a circuit. It is fixed per circuit, outside CP.
#[derive(Clone, Copy)]
pub enum Law {
    Mu,
    A,
}

// The constellation parameters that CP carries. Mask m is two halves: element 2 m has Ucodes 0 to 63, element 2 m + 1 has Ucodes 64 to 127.
#[derive(Clone, Copy)]
pub struct Record {
    pub granted: bool,
    pub drn: u8,
    pub acknowledge: bool,
    pub index: [u8; 6],
    pub mask: [u64; 12],
}

// The line state: the last 23 scrambled bits, the latest in weight 1, the last sign, and how many coming data bits are doubtful. Then the
// control channel's: the frame place, the sequence place (control frames done), the sequence's 96 bits, and whether a frame of it was lost.
#[derive(Clone, Copy)]
pub struct LineState {
    pub history: u32,
    pub sign: bool,
    pub doubtful: u8,
    pub place: u8,
    pub done: u8,
    pub sequence: [u8; 12],
    pub lost: bool,
}

// The refusals 1 to 19, 22 to 24, 25 with the interval whose mask is empty, and 26 to 28.
#[derive(Clone, Copy)]
pub enum Refusal {
    CountExceedsBytes,
    CountTooSmall,
    SyncBroken,
    IndexTooLarge,
    LengthWrong,
    StartBitSet,
    CrcMismatch,
    FixedBitWrong,
    DrnTooLarge,
    GrantedBelowFullRate,
    ProductTooSmall,
    MaskAboveIndices,
    FramesAtCleardown,
    HistoryTooLarge,
    TooManyFrames,
    InputTooShort,
    OutputTooShort,
    DoubtfulTooLarge,
    PlaceTooLarge,
    FileBroken,
    SettingMissing,
    TooManyJunctions,
    IntervalEmpty(u8),
    RateOrSpacingOutside,
    NoMask,
    SumExceedsCeiling,
}

// What the receiver says of the control sequence that ends in a call: its bits 16, 17 and 24 to 77, or why they are not to be had; nothing
// where none ends.
// It is no Option of a Result: the definitions of what is heard, `receive_says` and `judged`, and theorems of `theorems` are over it.
#[derive(Clone, Copy)]
pub enum Said {
    Nothing,
    Sequence(u64),
    FrameLost,
    PatternWrong,
    CrcWrong,
}

// A planned mask: M, the mask's halves and its sum of squared linear values.
#[derive(Clone, Copy)]
pub struct Planned {
    pub points: u32,
    pub mask: [u64; 2],
    pub sum: u64,
}

// A version of the settings file: the bytes of a start, the bytes of the count, the most junctions, and its version byte.
#[derive(Clone, Copy)]
pub struct Version {
    pub start: usize,
    pub count: usize,
    pub most: usize,
    pub byte: u8,
}
