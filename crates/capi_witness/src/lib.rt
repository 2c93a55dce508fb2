// The log that shows a verdict, under a C name, which passes on what the call below it promises, with its answer as a struct of numbers.
#![tactic(auto)]

mod showing;

pub use showing::{WitnessReply, hwsq_witness};
