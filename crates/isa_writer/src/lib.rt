// The writer of the hardware sequencer's instructions.
#![tactic(auto)]

mod writer;

pub use writer::encode;
