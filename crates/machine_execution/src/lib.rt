// Which slots execute a script.
#![tactic(auto)]

ghost use Rattle.std.specs.Prelude.{◌≡◌, not, ◌&&◌};
ghost use Rattle.machine_state.specs.Slot.{has_slot, is_idle};
ghost use Rattle.machine_execution.specs.Execution.{some_executes, some_slot_executes, executing_slot};
ghost use Rattle.machine_execution.specs.Execution.{executes as Execution·executes};

use machine_state::{Mode, SlotName, State, has_slot, is_idle, slot_of};

// A slot executes unless it is idle; one that the family lacks never does.
pub fn is_executing(family: u8, name: SlotName, mode: Mode) -> bool
    ensures { result ≡ (has_slot family name && not (is_idle mode)) }
{
    has_slot(family, name) && !is_idle(mode)
}

pub fn executes(state: State, name: SlotName) -> bool
    ensures { result ≡ Execution·executes state name }
{
    is_executing(state.family, name, slot_of(state, name).mode)
}

// Whether a slot of the family executes, where A and B are in these modes.
pub fn some_executes(family: u8, a: Mode, b: Mode) -> bool
    ensures { result ≡ some_executes family a b }
{
    is_executing(family, SlotName::A, a) || is_executing(family, SlotName::B, b)
}

pub fn some_slot_executes(state: State) -> bool
    ensures { result ≡ some_slot_executes state }
{
    some_executes(state.family, state.a.mode, state.b.mode)
}

// The slot that executes, where one does.
pub fn executing_slot(state: State) -> SlotName
    ensures { result ≡ executing_slot state }
{
    if executes(state, SlotName::A) {
        SlotName::A
    } else {
        SlotName::B
    }
}
