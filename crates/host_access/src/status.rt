// The register STATUS.
ghost use Rattle.std.specs.Prelude.{◌≡◌, ◌≤◌, ◌<◌};
ghost use Rattle.host_registers.specs.Status.{bit_if, shows_hang, shows_bit8, slot_status, status_word};

use crate::addresses::is_high;
use machine_state::{Mode, Slot, SlotName, State};

// A bit of this weight, lit or not.
pub(crate) fn bit_if(lit: bool, weight: u32) -> u32
    ensures value { result ≡ bit_if lit weight }
    ensures upper_bound { result ≤ weight }
{
    if lit { weight } else { 0 }
}

// The families whose unknown opcodes hang a slot show it.
fn shows_hang(family: u8, mode: Mode) -> bool
    ensures { result ≡ shows_hang family mode }
{
    families::unknown_hangs(family) && mode == Mode::Hung
}

// The family whose IP has nine bits shows the ninth.
fn shows_bit_8(family: u8, ip: usize) -> bool
    ensures { result ≡ shows_bit8 family ip }
{
    is_high(family) && ip / 256 % 2 == 1
}

// What STATUS shows of one slot.
#[tactic(auto, unfolding(host_registers::specs::Status::slot_status))]
fn slot_status(family: u8, slot: Slot) -> u32
    ensures value { result ≡ slot_status family slot }
    ensures upper_bound { result < 65536 }
{
    let executing = bit_if(!machine_state::is_idle(slot.mode), 256);
    let hung = bit_if(shows_hang(family, slot.mode), 512);
    let high = bit_if(shows_bit_8(family, slot.ip.0), 1024);
    (slot.ip.0 % 256) as u32 + executing + hung + high
}

#[tactic(auto, unfolding(host_registers::specs::Status::status_word))]
pub(crate) fn status_word(state: State) -> u32
    ensures { result ≡ status_word state }
{
    if machine_state::has_slot(state.family, SlotName::B) {
        slot_status(state.family, state.a) + 65536 * slot_status(state.family, state.b)
    } else {
        slot_status(state.family, state.a)
    }
}
