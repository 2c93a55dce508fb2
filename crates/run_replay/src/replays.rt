// Replay: the run of a script against a recorded log.
ghost use Rattle.std.specs.Prelude.{◌≡◌, true, ◌+◌, ◌*◌, ◌^◌, ◌<◌, ◌≤◌, length};
ghost use Rattle.std.proofs.lemmas.List.Edits.{sets};
ghost use Rattle.event_log.specs.Log.{lent_log};
ghost use Rattle.event_log.specs.Validity.{valid_log};
ghost use Rattle.log_waits.specs.Left.{left_of};
ghost use Rattle.machine_slot.specs.SlotStep.{slot_step_of};
ghost use Rattle.run.specs.Run.{wrote_by, fetched_by};
ghost use Rattle.run.specs.Replay.{max_entries, ending_of, entries_of, progress_of, told_of, RunsSlot, Replays};
ghost use Rattle.run.specs.Registers.{given_registers};
ghost use Rattle.run.specs.SlotRun.{lent_scene, fetch_in, slot_begun, slot_at_entry};
ghost use Rattle.script.specs.Script.{lent_script};
ghost use Rattle.run_replay.specs.Progress.{progress_after, RunsThrough};

use event_log::{Log, Place};
use isa::{CodeAddress, MmioAddress};
use machine_flags::Flags;
use machine_slot::{Effect, SlotStep};
use machine_state::{Mode, Slot};
use refusals::Unreplayable;
use run::{Ending, Progress, Registers, Replayed, Scene};
use script::Script;

// Two entries a write, and a script of 512 bytes makes at most 170 writes.
pub const MAX_ENTRIES: usize = 340;

// Runs the script from its entry, with these registers, under the log. The writes go into the lent entries, address and
// data of each; the other entries stay as lent.
pub fn replay(
    script: Script<'_>,
    registers: Registers,
    log: Log<'_>,
    writes: &mut [u32],
) -> Result<Replayed, Unreplayable>
    ensures { Replays (lent_script script.entry) (given_registers registers) (lent_log log.entry) writes.old writes.new result }
{
    let scene = Scene {
        ram: script.ram,
        enable: registers.enable,
        log,
    };
    let slot = slot_at_entry(script.entry, registers.addr, registers.data);
    let flags = machine_flags::flags_from_words(registers.flags_0, registers.flags_1);
    let last = run(scene, slot, flags, writes)?;
    Ok(told(last, log.clocks))
}

// A slot that runs from the entry, with this ADDR and DATA.
fn slot_at_entry(entry: CodeAddress, addr: MmioAddress, data: u32) -> Slot
    ensures { result ≡ slot_at_entry entry.0 addr.0 «data» }
{
    Slot {
        mode: Mode::Running,
        ip: entry,
        addr,
        data,
    }
}

// Runs a slot from where it stands, if its IP may be an entry, under the log. The writes go into the lent entries, address
// and data of each; the other entries stay as lent.
pub fn run(
    scene: Scene<'_>,
    slot: Slot,
    flags: Flags,
    writes: &mut [u32],
) -> Result<Progress, Unreplayable>
    ensures { RunsSlot (lent_scene scene.entry) slot flags writes.old writes.new result }
{
    let script = Script {
        ram: scene.ram,
        entry: slot.ip,
    };
    if !script.fits() {
        return Err(Unreplayable::Input);
    }
    if writes.len() < MAX_ENTRIES {
        return Err(Unreplayable::Room);
    }
    if !scene.log.is_valid() {
        return Err(Unreplayable::Log);
    }
    Ok(run_slot_steps(scene, slot, flags, writes))
}

fn begin(slot: Slot, flags: Flags) -> Progress
    ensures { result ≡ progress_of (slot_begun slot flags) }
{
    Progress {
        slot,
        flags,
        place: Place { row: 0, used: 0 },
        steps: 0,
        writes: 0,
        waited: 0,
        searched: 0,
    }
}

// One instruction: fetched, taken apart, and done.
fn take_slot_step(scene: Scene<'_>, progress: Progress) -> SlotStep
    ensures { let x = lent_scene scene.entry in
        result ≡ slot_step_of x.family x.enable progress.slot progress.flags x.log progress.place (fetch_in x progress.slot.ip.0) }
{
    let Progress {
        slot,
        flags,
        place,
        ..
    } = progress;
    let found = scene.ram.fetch(slot.ip);
    let Ok((instruction, length)) = found else {
        let why = isa_fetch::reason_of(found);
        let next = isa_fetch::past_opcode(slot.ip);
        return machine_slot::unfetched(scene.ram.family, slot, flags, place, next, why);
    };
    let action = machine_actions::action_of(instruction);
    let elapsed = machine_time::elapse(action, scene.log, place);
    let next = CodeAddress(slot.ip.0 + length);
    machine_slot::perform(scene.enable, slot, flags, action, next, elapsed)
}

// Whether an effect is a fetched instruction, as 0 or 1.
fn fetched(effect: Effect) -> usize
    ensures { result ≡ fetched_by effect }
{
    match effect {
        Effect::Refused(_) | Effect::Nothing => 0,
        Effect::Stopped(_) => 0, // a stop is none
        Effect::Unknown | Effect::Done | Effect::Wrote(_, _) => 1,
    }
}

// How many writes an effect is.
fn written(effect: Effect) -> usize
    ensures { result ≡ length (wrote_by effect) }
{
    match effect {
        Effect::Wrote(_, _) => 1, // one write
        _ => 0,
    }
}

// Puts a write's address and data at a place of the lent entries.
fn store(effect: Effect, writes: &mut [u32], at: usize)
    requires { at + 2 * length (wrote_by effect) ≤ length writes.old }
    ensures { writes.new ≡ sets writes.old at (entries_of (wrote_by effect)) }
{
    if let Effect::Wrote(address, word) = effect {
        writes[at] = address.0;
        writes[at + 1] = word;
    }
}

fn after_slot_step(progress: Progress, step: SlotStep) -> Progress
    requires { (progress.steps < 1024) × (progress.writes < 1024)
        × (progress.waited + step.waited < 2 ^ 64) × (progress.searched + step.searched < 2 ^ 64) }
    ensures { result ≡ progress_after progress step }
{
    Progress {
        slot: step.slot,
        flags: step.flags,
        place: step.place,
        steps: progress.steps + fetched(step.effect),
        writes: progress.writes + written(step.effect),
        waited: progress.waited + step.waited,
        searched: progress.searched + step.searched,
    }
}

// Step after step, until the slot does not run, is stopped, as every later step would stop it, or there was one step more than
// the code RAM has bytes.
fn run_slot_steps(scene: Scene<'_>, slot: Slot, flags: Flags, writes: &mut [u32]) -> Progress
    requires { (slot.ip.0 ≤ 512) × (valid_log (lent_log scene.log) ≡ true) × (max_entries ≤ length writes.old) }
    ensures { RunsThrough (lent_scene scene.entry) slot flags writes.old writes.new result }
{
    let limit = families::code_size(scene.ram.family) + 1;
    let mut progress = begin(slot, flags);
    for _step in 0..limit {
        if !machine_state::is_running(progress.slot.mode) {
            return progress;
        }
        let step = take_slot_step(scene, progress);
        if fetched(step.effect) == 0 {
            return progress;
        }
        store(step.effect, writes, 2 * progress.writes);
        progress = after_slot_step(progress, step);
    }
    progress
}

// How a run ended whose slot is in this mode.
fn ending_of(mode: Mode) -> Ending
    ensures { result ≡ ending_of mode }
{
    match mode {
        Mode::Idle => Ending::Exit,
        Mode::Running => Ending::Stop,
        Mode::Waiting => Ending::Log,
        Mode::Blocked => Ending::Poke,
        Mode::Hung => Ending::Hang,
    }
}

// What replay answers of a run. It asks that what is left of the log fits 64 bits, as it does of every log.
fn told(last: Progress, clocks: &[u64]) -> Replayed
    requires { left_of clocks.now last.place < 2 ^ 64 }
    ensures { result ≡ told_of clocks.now last }
{
    let Progress {
        slot,
        flags,
        place,
        ..
    } = last;
    Replayed {
        ending: ending_of(slot.mode),
        ip: slot.ip,
        addr: slot.addr,
        data: slot.data,
        flags_0: machine_flags::flags_word_0(flags),
        flags_1: machine_flags::flags_word_1(flags),
        place,
        steps: last.steps,
        writes: last.writes,
        waited: last.waited,
        searched: last.searched,
        left: log_waits::clocks_left(clocks, place),
    }
}
