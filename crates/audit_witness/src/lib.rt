// The verdict on a script, and a log that shows it from every start.
#![tactic(auto)]

mod columns;
mod rows;
mod showing;

pub use columns::Columns;
pub use showing::{MAX_SHOWN, Shown, witness};
