// Probe gates under C names, with floats as bit patterns.
#![tactic(auto)]

mod samples;

pub use samples::{SampleReply, hwsq_sample};
