// Starting and aborting a script: what a word written to TRIGGER does.
ghost use Rattle.std.specs.Prelude.{◌≡◌, cond};
ghost use Rattle.host_registers.specs.Trigger.{is_start, slot_named, started_at, aborted, after_trigger};

use crate::entries::entry_point;
use isa::CodeAddress;
use machine_state::{Mode, Slot, SlotName, State};

pub(crate) fn is_start(word: u32) -> bool
    ensures { result ≡ is_start word }
{
    word % 2 == 1
}

// The slot that a trigger means: A, or B where there is one and bit 1 is clear.
fn slot_named(family: u8, word: u32) -> SlotName
    ensures { result ≡ slot_named family word }
{
    if machine_state::has_slot(family, SlotName::B) && word / 2 % 2 == 0 {
        SlotName::B
    } else {
        SlotName::A
    }
}

// The slot after a trigger: at the start of a script, or stopped. ADDR and DATA outlive scripts, and an abort keeps IP.
fn triggered(slot: Slot, word: u32, entry: usize) -> Slot
    ensures { result ≡ cond (is_start word) (started_at slot entry) (aborted slot) }
{
    if is_start(word) {
        Slot {
            mode: Mode::Running,
            ip: CodeAddress(entry),
            ..slot
        }
    } else {
        Slot {
            mode: Mode::Idle,
            ..slot
        }
    }
}

#[tactic(auto, unfolding(host_registers::specs::Trigger::after_trigger))]
pub(crate) fn trigger(state: &mut State, word: u32)
    ensures { state.new ≡ after_trigger state.old word }
{
    let entry = entry_point(
        state.family,
        state.entries,
        state.entries_high,
        word / 4 % 4,
    );
    match slot_named(state.family, word) {
        SlotName::A => state.a = triggered(state.a, word, entry),
        SlotName::B => state.b = triggered(state.b, word, entry),
    }
}
