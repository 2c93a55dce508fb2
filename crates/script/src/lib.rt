// What may be audited and replayed: a script in code RAM, and the allowed ranges.
#![tactic(auto)]

mod input;
mod ranges;

pub use input::Script;
pub use ranges::{MAX_RANGES, holds, listed, ranges_fit};
