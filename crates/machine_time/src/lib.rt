// How time passes during an action.
#![tactic(auto)]

mod elapsed;

pub use elapsed::{Elapsed, elapse};
