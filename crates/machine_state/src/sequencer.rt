// The sequencer without its code RAM: few enough bytes to go by value where the code is stored in place.
ghost use Rattle.std.specs.Prelude.{◌≡◌};
ghost use Rattle.machine_state.specs.Sequencer.{sequencer_of, state_from};

use crate::slots::Slot;
use crate::state::State;
use machine_flags::Flags;

#[derive(Clone, Copy)]
pub struct Sequencer {
    pub family: u8,
    pub flags: Flags,
    pub enable: bool,
    pub override_mode: bool,
    pub entries: u32,
    pub entries_high: u32,
    pub a: Slot,
    pub b: Slot,
}

pub fn sequencer_of(state: State) -> Sequencer
    ensures { result ≡ sequencer_of state }
{
    Sequencer {
        family: state.family,
        flags: state.flags,
        enable: state.enable,
        override_mode: state.override_mode,
        entries: state.entries,
        entries_high: state.entries_high,
        a: state.a,
        b: state.b,
    }
}

// The state of a sequencer with this code RAM.
pub fn state_from(
    sequencer: Sequencer,
    code: [u8; families::MAX_CODE],
    marks: [u8; families::MAX_CODE],
) -> State
    ensures { result ≡ state_from sequencer code marks }
{
    State {
        family: sequencer.family,
        code,
        marks,
        flags: sequencer.flags,
        enable: sequencer.enable,
        override_mode: sequencer.override_mode,
        entries: sequencer.entries,
        entries_high: sequencer.entries_high,
        a: sequencer.a,
        b: sequencer.b,
    }
}
