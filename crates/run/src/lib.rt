// What a run is, and what replay is to answer of one: definitions and laws, and no code but the number of an ending.
#![tactic(auto)]

mod answers;
mod given;

pub use answers::{Ending, Progress, Replayed};
pub use given::{Registers, Scene};
