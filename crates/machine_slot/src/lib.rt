// What one fetched instruction does to its slot, the flags and the place in the log.
#![tactic(auto)]

mod slot_steps;

pub use slot_steps::{Effect, SlotStep, perform, unfetched};
