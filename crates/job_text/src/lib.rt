// A report: bytes, decimals and hex digits put into a lent buffer, one after the other. A text that has no room is not stored at
// all, and the next one is then to stand where it was to stand.
#![tactic(auto)]

mod bytes;
mod decimal;
mod hex;
mod report;

pub use report::Report;
