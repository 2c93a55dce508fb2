// Replay: the run of a script against a recorded log.
#![tactic(auto)]

mod replays;

pub use replays::{MAX_ENTRIES, replay, run};
