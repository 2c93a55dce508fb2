// What the auditor says of a script and what that means for whole runs: definitions and the proof of the claim, no code.
#![tactic(auto)]

mod verdicts;

pub use verdicts::{Judgement, Knowledge, Verdict};
