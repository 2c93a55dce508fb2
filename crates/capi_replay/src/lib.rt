// Replay under a C name, which passes on what replay promises, with its answer as a struct of numbers.
#![tactic(auto)]

mod replays;

pub use replays::{ReplayReply, hwsq_replay};
