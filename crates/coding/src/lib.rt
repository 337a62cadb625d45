// What a frame's bits pass on their way to the line and back: the scrambler, the modulus encoder, and the coding of signs.
#![tactic(auto)]

pub mod modulus;
pub mod scrambler;
pub mod signs;
