// What the auditor says of one instruction, and what it knows after it.
ghost use Rattle.std.specs.Prelude.{◌≡◌, cond, ◌&&◌, eqb, ◌+◌, ◌^◌, ◌<◌};
ghost use Rattle.families.specs.Family.{pauses_memory};
ghost use Rattle.machine_flags.specs.Flags.{fb_pause};
ghost use Rattle.audit_verdict.specs.Auditor.{target_of, judge_poke, can_release, judge_of};
ghost use Rattle.audit_verdict.specs.Auditor.{known_addr, known_data, known_paused, poke_count, wait_length, loads_both, is_set1, know_next, know_nothing};

use audit_verdict::{Judgement, Knowledge};
use isa::MmioAddress;
use machine_actions::{Action, Part};
use machine_flags::Change;
use refusals::Fault;
use script::listed;

// Where a poke goes, as far as the script has said.
fn target_of(part: Part, word: u32, known: Option<MmioAddress>) -> Option<MmioAddress>
    ensures { result ≡ target_of part word known }
{
    match part {
        Part::Whole => Some(MmioAddress(word)),
        Part::Low => {
            let address = known?;
            Some(MmioAddress(machine_actions::merge(part, address.0, word)))
        }
    }
}

fn judge_poke(ranges: &[u32], target: Option<MmioAddress>, halves: bool) -> Judgement
    ensures { result ≡ judge_poke ranges.now target halves }
{
    let Some(address) = target else {
        return Judgement::Bad(Fault::NoAddress);
    };
    if !halves {
        return Judgement::Bad(Fault::HalfData);
    }
    if listed(ranges, address) {
        Judgement::Fine
    } else {
        Judgement::Bad(Fault::Outside)
    }
}

// Whether some reading can release such an ewait.
#[tactic(auto, unfolding(audit_verdict::specs::Auditor::can_release))]
fn can_release(event: u8, value: u8) -> bool
    ensures { result ≡ can_release event value }
{
    event < 32 && value < 2
}

fn judge_ewait(event: u8, value: u8) -> Judgement
    ensures { result ≡ cond (can_release event value) Judgement.Fine (Judgement.Bad Fault.Unreleased) }
{
    if can_release(event, value) {
        Judgement::Fine
    } else {
        Judgement::Bad(Fault::Unreleased)
    }
}

fn judge_exit(family: u8, paused: bool) -> Judgement
    ensures { result ≡ cond (pauses_memory family && paused) (Judgement.Bad Fault.Paused) Judgement.Exit }
{
    if families::pauses_memory(family) && paused {
        Judgement::Bad(Fault::Paused)
    } else {
        Judgement::Exit
    }
}

pub fn judge(family: u8, ranges: &[u32], action: Action, known: Knowledge) -> Judgement
    ensures { result ≡ judge_of family ranges.now action known }
{
    match action {
        Action::Ewait(event, value) => judge_ewait(event, value),
        Action::Poke(part, word) => {
            judge_poke(ranges, target_of(part, word, known.addr), known.data)
        }
        Action::Exit => judge_exit(family, known.paused),
        _ => Judgement::Fine,
    }
}

fn loads_both(part: Part, halves: bool) -> bool
    ensures { result ≡ loads_both part halves }
{
    matches!(part, Part::Whole) || halves
}

fn touch(change: Change, flag: u8, paused: bool) -> bool
    ensures { result ≡ cond (eqb flag fb_pause) (is_set1 change) paused }
{
    if flag == machine_flags::FB_PAUSE {
        matches!(change, Change::Set1)
    } else {
        paused
    }
}

fn known_addr(action: Action, addr: Option<MmioAddress>) -> Option<MmioAddress>
    ensures { result ≡ known_addr action addr }
{
    match action {
        Action::Poke(part, word) => target_of(part, word, addr),
        _ => addr,
    }
}

fn known_data(action: Action, halves: bool) -> bool
    ensures { result ≡ known_data action halves }
{
    match action {
        Action::Load(part, _) => loads_both(part, halves),
        _ => halves,
    }
}

fn known_paused(action: Action, paused: bool) -> bool
    ensures { result ≡ known_paused action paused }
{
    match action {
        Action::Flag(change, flag) => touch(change, flag, paused),
        _ => paused,
    }
}

fn poke_count(action: Action) -> usize
    ensures { result ≡ poke_count action }
{
    match action {
        Action::Poke(_, _) => 1,
        _ => 0,
    }
}

fn wait_length(action: Action) -> u64
    ensures { result ≡ wait_length action }
{
    match action {
        Action::Wait(n) => n,
        _ => 0,
    }
}

pub fn know_nothing() -> Knowledge
    ensures { result ≡ know_nothing }
{
    Knowledge {
        addr: None,
        data: false,
        paused: false,
        count: 0,
        writes: 0,
        clocks: 0,
    }
}

// What is known after an instruction. Its counts are small: a script has 512 bytes at most.
pub(crate) fn know_next(action: Action, known: Knowledge) -> Knowledge
    requires { (known.count < 1024) × (known.writes < 1024) × (known.clocks + wait_length action < 2 ^ 64) }
    ensures { result ≡ know_next action known }
{
    Knowledge {
        addr: known_addr(action, known.addr),
        data: known_data(action, known.data),
        paused: known_paused(action, known.paused),
        count: known.count + 1,
        writes: known.writes + poke_count(action),
        clocks: known.clocks + wait_length(action),
    }
}
