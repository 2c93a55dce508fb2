// The reasons that calls answer as enums, with their numbers.
#![tactic(auto)]

mod refusals;

pub use refusals::{
    Fault, Inaccessible, Unreadable, Unreplayable, Unshowable, Unsteppable, Unwritable,
};
