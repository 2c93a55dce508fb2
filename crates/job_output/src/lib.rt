// The report on a job.
#![tactic(auto)]

mod lines;
mod reports;
mod runs;

pub use reports::{JOB_BUFFER, MAX_REPORT, report};
