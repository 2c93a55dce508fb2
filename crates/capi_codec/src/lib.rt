// The facts of the families, and the instruction reader and writer, under C names. Each call passes on what the calls below it
// promise, with its answer as a struct of numbers.
#![tactic(auto)]

mod decoding;
mod encoding;
mod facts;

pub use decoding::{DecodeReply, hwsq_decode};
pub use encoding::{EncodeReply, hwsq_encode};
pub use facts::{FamilyReply, hwsq_family};
