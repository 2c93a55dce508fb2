// The instruction reader.
#![tactic(auto)]

mod decoding;
mod opcodes;
mod operands;

pub use decoding::decode;
