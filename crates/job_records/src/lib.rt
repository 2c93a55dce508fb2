// The records of a job: what they may be, in which order they come, and what they say together.
#![tactic(auto)]

mod by_kind;
mod by_probe;
mod contents;
mod jobs;
mod kinds;
mod listing;
mod refusal;

pub use contents::{Counts, Job};
pub use jobs::{JobRead, MAX_BYTES, read_job};
pub use refusal::Refusal;
