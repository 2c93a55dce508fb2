// The machine's state as C holds it, handed over and back by the calls with C names.
#![tactic(auto)]

mod images;

pub use images::{SlotImage, StateImage};
