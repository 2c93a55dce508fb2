// The report under a C name, which passes on what the report promises.
#![tactic(auto)]

mod reporting;

pub use reporting::hwsq_report;
