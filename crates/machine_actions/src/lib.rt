// What an instruction asks of the machine: the ten instructions in six classes.
#![tactic(auto)]

mod actions;
mod clocks;

pub use actions::{Action, Part, action_of, merge};
pub use clocks::wait_clocks;
