// A recorded event log: rows as three columns (clocks, known mask, value mask), a row, which events it has a
// reading for, and a place in them.
#![tactic(auto)]

mod coverage;
mod lent;
mod place;
mod row;
mod validity;

pub use coverage::{first_missing, reading_count};
pub use lent::Log;
pub use place::Place;
pub use row::Row;
pub use validity::{MAX_ROWS, clocks_in_range, valid_place};
