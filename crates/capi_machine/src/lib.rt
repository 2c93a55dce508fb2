// The step machine under C names. Each call passes on what the call below it promises, with its answer as a struct of numbers.
#![tactic(auto)]

mod pausing;
mod stepping;

pub use pausing::hwsq_paused;
pub use stepping::{StepReply, hwsq_step};
