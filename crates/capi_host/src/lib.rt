// The host's accesses under C names. Each call passes on what the call below it promises, with its answer as a struct of numbers.
#![tactic(auto)]

mod accesses;

pub use accesses::{AccessReply, ReadReply, hwsq_fresh, hwsq_read, hwsq_write};
