// The host's side of the sequencer: writes and reads of its registers.
#![tactic(auto)]

mod access;
mod addresses;
mod code;
mod entries;
mod status;
mod triggers;

pub use access::{read_register, write, write_register};
