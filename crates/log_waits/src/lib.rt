// How a wait of some clocks passes over the rows of a log, and what the log has left.
#![tactic(auto)]

mod left;
mod row;
mod wait;

pub use left::clocks_left;
pub use row::unused;
pub use wait::{Waited, clock_wait};
