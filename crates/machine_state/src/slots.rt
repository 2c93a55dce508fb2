// A slot: its mode, its IP, and ADDR and DATA, which outlive a script.
ghost use Rattle.std.specs.Prelude.{◌≡◌};
ghost use Rattle.machine_state.specs.Slot.{has_slot, is_running, is_idle, mode_number};

use isa::{CodeAddress, MmioAddress};

#[derive(Clone, Copy, PartialEq, Eq, Debug)]
pub enum SlotName {
    A,
    B,
}

// What a slot does. It executes unless idle.
#[derive(Clone, Copy, PartialEq, Eq, Debug)]
pub enum Mode {
    Idle,
    Running,
    // in a wait or ewait that the log's end left unfinished
    Waiting,
    // at a poke with HWSQ_ENABLE 0
    Blocked,
    // after an unknown opcode, on families 2 and 3
    Hung,
}

// The number that C holds for a mode.
impl From<Mode> for u8 {
    fn from(mode: Mode) -> u8
        ensures { result ≡ mode_number mode }
    {
        match mode {
            Mode::Idle => 0,
            Mode::Running => 1,
            Mode::Waiting => 2,
            Mode::Blocked => 3,
            Mode::Hung => 4,
        }
    }
}

#[derive(Clone, Copy)]
pub struct Slot {
    pub mode: Mode,
    pub ip: CodeAddress,
    pub addr: MmioAddress,
    pub data: u32,
}

// Whether the family has the slot.
pub fn has_slot(family: u8, name: SlotName) -> bool
    ensures { result ≡ has_slot family name }
{
    match name {
        SlotName::A => 1 <= families::slot_count(family),
        SlotName::B => 2 <= families::slot_count(family),
    }
}

pub fn is_running(mode: Mode) -> bool
    ensures { result ≡ is_running mode }
{
    mode == Mode::Running
}

pub fn is_idle(mode: Mode) -> bool
    ensures { result ≡ is_idle mode }
{
    mode == Mode::Idle
}
