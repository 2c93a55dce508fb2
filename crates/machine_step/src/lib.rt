// The step machine of the hardware sequencer: one step of one slot.
#![tactic(auto)]

mod steps;

pub use steps::{Stepped, step};
