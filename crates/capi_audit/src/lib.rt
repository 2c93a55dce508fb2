// The auditor under a C name, which passes on what the auditor promises, with its verdict as a struct of numbers.
#![tactic(auto)]

mod verdicts;

pub use verdicts::{AuditReply, hwsq_audit};
