// The state that host and scripts share, and its two slots.
#![tactic(auto)]

mod sequencer;
mod slots;
mod state;

pub use sequencer::{Sequencer, sequencer_of, state_from};
pub use slots::{Mode, Slot, SlotName, has_slot, is_idle, is_running};
pub use state::{State, slot_of, with_slot};
