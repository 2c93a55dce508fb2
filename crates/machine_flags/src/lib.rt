// The 32 flags of the sequencer, and what an instruction does to one.
#![tactic(auto)]

mod flags;

pub use flags::{
    Change, FB_PAUSE, Flags, changed_flags, flags_from_words, flags_word_0, flags_word_1,
    memory_paused,
};
