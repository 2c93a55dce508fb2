// An address looked up in allowed ranges that rise.
#![tactic(auto)]

mod lookup;
mod rising;

pub use lookup::{Lookup, search};
pub use rising::ranges_rise;
