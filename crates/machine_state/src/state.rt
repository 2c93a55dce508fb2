// The whole state that host and scripts share.
ghost use Rattle.std.specs.Prelude.{◌≡◌};
ghost use Rattle.machine_state.specs.Slot.{slot_of, with_slot};

use crate::slots::{Slot, SlotName};
use machine_flags::Flags;

#[derive(Clone, Copy)]
pub struct State {
    pub family: u8,
    pub code: [u8; families::MAX_CODE],
    // 1 where the byte was uploaded
    pub marks: [u8; families::MAX_CODE],
    pub flags: Flags,
    // register 1098: HWSQ_ENABLE and override mode
    pub enable: bool,
    pub override_mode: bool,
    // registers ENTRY_POINT and ENTRY_POINT_HIGH
    pub entries: u32,
    pub entries_high: u32,
    pub a: Slot,
    pub b: Slot,
}

pub fn slot_of(state: State, name: SlotName) -> Slot
    ensures { result ≡ slot_of state name }
{
    match name {
        SlotName::A => state.a,
        SlotName::B => state.b,
    }
}

// The state with another slot and other flags.
pub fn with_slot(state: State, name: SlotName, slot: Slot, flags: Flags) -> State
    ensures { result ≡ with_slot state name slot flags }
{
    match name {
        SlotName::A => State {
            flags,
            a: slot,
            ..state
        },
        SlotName::B => State {
            flags,
            b: slot,
            ..state
        },
    }
}
