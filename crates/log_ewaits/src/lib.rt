// How a wait for an event passes over the rows of a log.
#![tactic(auto)]

mod ewait;
mod row;

pub use ewait::{Released, event_wait, has_reading};
