// One step of one slot.
ghost use Rattle.std.specs.Prelude.{◌≡◌, ◌&&◌};
ghost use Rattle.machine_state.specs.Slot.{has_slot, is_running};
ghost use Rattle.machine_step.specs.Step.{after_slot_step, advance_of};
ghost use Rattle.machine_step.specs.Step.{unmoved as Step·unmoved};
ghost use Rattle.event_log.specs.Log.{lent_log};
ghost use Rattle.event_log.specs.Validity.{valid_log, valid_place};
ghost use Rattle.isa_fetch.specs.Fetch.{Fetches};
ghost use Rattle.machine_step.specs.Promises.{StepsOnce};

use event_log::{Log, Place};
use isa::{CodeAddress, Instruction};
use isa_fetch::CodeRam;
use machine_actions::action_of;
use machine_slot::{Effect, SlotStep, perform, unfetched};
use machine_state::{Mode, SlotName, State, has_slot, is_running, slot_of, with_slot};
use machine_time::elapse;
use refusals::{Unreadable, Unsteppable};

#[derive(Clone, Copy)]
pub struct Stepped {
    pub state: State,
    pub place: Place,
    pub effect: Effect,
    // clocks spent in a wait, and clocks that an ewait's search passed by
    pub waited: u64,
    pub searched: u64,
}

// One step of the named slot, if the family is known and the place lies in a log.
pub fn step(state: State, name: SlotName, log: Log<'_>, at: Place) -> Stepped
    ensures { StepsOnce state name (lent_log log.entry) at result }
{
    if !families::known_family(state.family) {
        return unmoved(state, at, Effect::Refused(Unsteppable::Family));
    }
    if !in_log(log, at) {
        return unmoved(state, at, Effect::Refused(Unsteppable::Log));
    }
    advance(state, name, log, at)
}

// One step of the named slot, whatever the log is. On an idle, waiting, blocked or hung slot, and on one that the family
// lacks, it changes nothing.
fn advance(state: State, name: SlotName, log: Log<'_>, at: Place) -> Stepped
    ensures { result ≡ advance_of state name (lent_log log.entry) at }
{
    let slot = slot_of(state, name);
    if !can_run(state.family, name, slot.mode) {
        return unmoved(state, at, Effect::Nothing);
    }
    let ram = CodeRam {
        family: state.family,
        code: &state.code,
        marks: &state.marks,
    };
    let found = fetch(ram, slot.ip);
    let Ok((instruction, length)) = found else {
        let why = isa_fetch::reason_of(found);
        let next = isa_fetch::past_opcode(slot.ip);
        let stray = unfetched(state.family, slot, state.flags, at, next, why);
        return after_slot_step(state, name, stray);
    };
    let action = action_of(instruction);
    let elapsed = elapse(action, log, at);
    let next = CodeAddress(slot.ip.0 + length);
    let step = perform(state.enable, slot, state.flags, action, next, elapsed);
    after_slot_step(state, name, step)
}

// The instruction at a place. Called and not inlined, so that the search through a log has the registers to itself.
#[inline(never)]
fn fetch(ram: CodeRam<'_>, place: CodeAddress) -> Result<(Instruction, usize), Unreadable>
    ensures { Fetches ram.entry.family ram.entry.code.now ram.entry.marks.now place.0 result }
{
    ram.fetch(place)
}

fn can_run(family: u8, name: SlotName, mode: Mode) -> bool
    ensures { result ≡ (has_slot family name && is_running mode) }
{
    has_slot(family, name) && is_running(mode)
}

fn in_log(log: Log<'_>, at: Place) -> bool
    ensures { result ≡ (valid_log (lent_log log.entry) && valid_place log.entry.clocks.now at) }
{
    log.is_valid() && event_log::valid_place(log.clocks, at)
}

fn unmoved(state: State, place: Place, effect: Effect) -> Stepped
    ensures { result ≡ Step·unmoved state place effect }
{
    Stepped {
        state,
        place,
        effect,
        waited: 0,
        searched: 0,
    }
}

fn after_slot_step(state: State, name: SlotName, step: SlotStep) -> Stepped
    ensures { result ≡ after_slot_step state name step }
{
    let next = with_slot(state, name, step.slot, step.flags);
    Stepped {
        state: next,
        place: step.place,
        effect: step.effect,
        waited: step.waited,
        searched: step.searched,
    }
}
