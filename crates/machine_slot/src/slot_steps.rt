// One step: what a fetched instruction does to its slot, the flags and the place in the log.
ghost use Rattle.std.specs.Prelude.{◌≡◌};
ghost use Rattle.machine_slot.specs.SlotStep.{mode_after, ip_after, addr_after, data_after, flags_after, effect_of, perform_at, same_slot_step, unfetched_at};

use event_log::Place;
use isa::{CodeAddress, MmioAddress};
use machine_actions::{Action, merge};
use machine_flags::{Flags, changed_flags};
use machine_state::{Mode, Slot};
use machine_time::Elapsed;
use refusals::{Unreadable, Unsteppable};

// What a step did.
#[derive(Clone, Copy)]
pub enum Effect {
    Refused(Unsteppable),
    // the slot was idle, hung, blocked or waiting, or the family has no such slot
    Nothing,
    // the fetch failed, and why
    Stopped(Unreadable),
    // an unknown opcode
    Unknown,
    // an instruction that wrote nothing
    Done,
    Wrote(MmioAddress, u32),
}

#[derive(Clone, Copy)]
pub struct SlotStep {
    pub slot: Slot,
    pub flags: Flags,
    pub place: Place,
    pub effect: Effect,
    pub waited: u64,
    pub searched: u64,
}

// An unfinished wait holds the slot, and with HWSQ_ENABLE 0 a poke blocks it.
fn mode_after(action: Action, enable: bool, finished: bool) -> Mode
    ensures { result ≡ mode_after action enable finished }
{
    match action {
        Action::Wait(_) | Action::Ewait(_, _) if !finished => Mode::Waiting,
        Action::Poke(_, _) if !enable => Mode::Blocked,
        Action::Exit => Mode::Idle,
        _ => Mode::Running,
    }
}

fn ip_after(action: Action, at: usize, next: usize) -> usize
    ensures { result ≡ ip_after action at next }
{
    match action {
        Action::Exit => at,
        _ => next,
    }
}

fn addr_after(action: Action, addr: u32) -> u32
    ensures { result ≡ addr_after action addr }
{
    match action {
        Action::Poke(part, operand) => merge(part, addr, operand),
        _ => addr,
    }
}

fn data_after(action: Action, word: u32) -> u32
    ensures { result ≡ data_after action word }
{
    match action {
        Action::Load(part, operand) => merge(part, word, operand),
        _ => word,
    }
}

fn flags_after(action: Action, flags: Flags) -> Flags
    ensures { result ≡ flags_after action flags }
{
    match action {
        Action::Flag(change, flag) => changed_flags(change, flag, flags),
        _ => flags,
    }
}

// A poke with HWSQ_ENABLE 1 writes.
fn effect_of(action: Action, enable: bool, addr: u32, word: u32) -> Effect
    ensures { result ≡ effect_of action enable addr word }
{
    match action {
        Action::Poke(part, operand) if enable => {
            Effect::Wrote(MmioAddress(merge(part, addr, operand)), word)
        }
        _ => Effect::Done,
    }
}

// What an action does after which the next instruction stands at `next`, given how time passed.
pub fn perform(
    enable: bool,
    slot: Slot,
    flags: Flags,
    action: Action,
    next: CodeAddress,
    elapsed: Elapsed,
) -> SlotStep
    ensures { result ≡ perform_at enable slot flags action next.0 elapsed }
{
    SlotStep {
        slot: Slot {
            mode: mode_after(action, enable, elapsed.finished),
            ip: CodeAddress(ip_after(action, slot.ip.0, next.0)),
            addr: MmioAddress(addr_after(action, slot.addr.0)),
            data: data_after(action, slot.data),
        },
        flags: flags_after(action, flags),
        place: elapsed.place,
        effect: effect_of(action, enable, slot.addr.0, slot.data),
        waited: elapsed.waited,
        searched: elapsed.searched,
    }
}

// What a fetch that found no instruction does. An unknown opcode is passed to `next`, and hangs the slot on some families;
// any other reason stops the slot where it is.
pub fn unfetched(
    family: u8,
    slot: Slot,
    flags: Flags,
    place: Place,
    next: CodeAddress,
    why: Unreadable,
) -> SlotStep
    ensures { result ≡ unfetched_at family slot flags place next.0 why }
{
    match why {
        Unreadable::Unknown => {
            let mode = if families::unknown_hangs(family) {
                Mode::Hung
            } else {
                Mode::Running
            };
            let after = Slot {
                mode,
                ip: next,
                ..slot
            };
            unmoved(after, flags, place, Effect::Unknown)
        }
        _ => unmoved(slot, flags, place, Effect::Stopped(why)),
    }
}

// A step that takes no time and leaves flags and place alone.
fn unmoved(slot: Slot, flags: Flags, place: Place, effect: Effect) -> SlotStep
    ensures { result ≡ same_slot_step slot flags place effect }
{
    SlotStep {
        slot,
        flags,
        place,
        effect,
        waited: 0,
        searched: 0,
    }
}
