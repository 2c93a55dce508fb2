// A fresh state: the card before the host touched it.
#![tactic(auto)]

ghost use Rattle.std.specs.Prelude.{◌≡◌};
ghost use Rattle.machine_state.specs.Sequencer.{sequencer_of};
ghost use Rattle.host_registers.specs.Access.{blank_state};
ghost use Rattle.host_registers.specs.Promises.{Begins};

use host_registers::Access;
use isa::{CodeAddress, MmioAddress};
use machine_flags::Flags;
use machine_state::{Mode, Sequencer, Slot, state_from};
use refusals::Inaccessible;

// Every register 0, both slots idle.
#[tactic(auto, unfolding(host_registers::specs::Access::blank_state))]
pub fn fresh_sequencer(family: u8) -> Sequencer
    ensures { result ≡ sequencer_of (blank_state family) }
{
    let slot = Slot {
        mode: Mode::Idle,
        ip: CodeAddress(0),
        addr: MmioAddress(0),
        data: 0,
    };
    Sequencer {
        family,
        flags: Flags::default(),
        enable: false,
        override_mode: false,
        entries: 0,
        entries_high: 0,
        a: slot,
        b: slot,
    }
}

// The state of a card before the host touched it.
#[tactic(auto, using(host_registers::proofs::AccessLaws::begins), unfolding(host_registers::specs::Access::blank_state))]
pub fn fresh_state(family: u8) -> Access
    ensures { Begins family result }
{
    let code = [0u8; families::MAX_CODE];
    let marks = [0u8; families::MAX_CODE];
    let state = state_from(fresh_sequencer(family), code, marks);
    let outcome = if families::known_family(family) {
        Ok(())
    } else {
        Err(Inaccessible::Family)
    };
    Access { state, outcome }
}
