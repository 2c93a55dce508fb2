// The script that a job starts: its audit and its run; and STATUS.
ghost use Rattle.std.specs.Prelude.{◌≡◌, List, ℕ, ◌*◌, ◌≤◌, length, take};
ghost use Rattle.families.specs.Family.{code_size};
ghost use Rattle.audit_verdict.specs.Auditor.{audit_of};
ghost use Rattle.event_log.specs.Log.{log_of};
ghost use Rattle.script.specs.Input.{max_ranges};
ghost use Rattle.machine_state.specs.Sequencer.{state_from};
ghost use Rattle.job_records.specs.Started.{script_in};
ghost use Rattle.job_records.specs.Started.{executing as Started·executing};
ghost use Rattle.job_report.specs.JobScript.{status_of};
ghost use Rattle.job_output.specs.Inside.{RunsScript};

use audit_verdict::Verdict;
use event_log::Log;
use isa::MmioAddress;
use isa_fetch::CodeRam;
use machine_state::{Sequencer, Slot, SlotName, State};
use refusals::Unreplayable;
use run::{Progress, Scene};
use script::Script;

// The address of STATUS.
const STATUS: u32 = 0x001308;

// The slot that executes.
fn executing(sequencer: Sequencer) -> Slot
    ensures { (code marks : List ℕ) → result ≡ Started·executing (state_from sequencer code marks) }
{
    if machine_execution::is_executing(sequencer.family, SlotName::A, sequencer.a.mode) {
        sequencer.a
    } else {
        sequencer.b
    }
}

// The family's part of a code RAM.
fn code_ram<'a>(family: u8, code: &'a [u8], marks: &'a [u8]) -> CodeRam<'a>
    requires { (code_size family ≤ length code.now) × (code_size family ≤ length marks.now) }
    ensures { (result.family ≡ family) × (result.code.now ≡ take (code_size family) code.now) × (result.marks.now ≡ take (code_size family) marks.now) }
{
    let size = families::code_size(family);
    CodeRam {
        family,
        code: &code[..size],
        marks: &marks[..size],
    }
}

// The verdict on the script of a sequencer with this code RAM, over the first ranges. A job's arrays are lent to its audit and
// to its run, since a copy of them is 17 kB.
pub(crate) fn audit_code<'a>(
    sequencer: Sequencer,
    code: &'a [u8],
    marks: &'a [u8],
    bounds: &'a [u32],
    ranges: usize,
) -> Verdict
    requires family_in_bounds { (code_size sequencer.family ≤ length code.now) × (code_size sequencer.family ≤ length marks.now) }
    requires ranges_in_bounds { (2 * ranges ≤ length bounds.now) × (ranges ≤ max_ranges) }
    ensures { result ≡ audit_of (script_in (state_from sequencer code.now marks.now)) (take (2 * ranges) bounds.now) }
{
    let script = Script {
        ram: code_ram(sequencer.family, code, marks),
        entry: executing(sequencer).ip,
    };
    audit_script::audit(script, &bounds[..2 * ranges])
}

// The run of that script over the first rows of these columns; its writes go into the lent entries.
pub(crate) fn run_code<'a>(
    sequencer: Sequencer,
    code: &'a [u8],
    marks: &'a [u8],
    clocks: &'a [u64],
    known: &'a [u32],
    values: &'a [u32],
    rows: usize,
    writes: &mut [u32],
) -> Result<Progress, Unreplayable>
    requires family_in_bounds { (code_size sequencer.family ≤ length code.now) × (code_size sequencer.family ≤ length marks.now) }
    requires rows_in_bounds { (rows ≤ length clocks.now) × (rows ≤ length known.now) × (rows ≤ length values.now) }
    ensures { RunsScript
        (state_from sequencer code.now marks.now)
        (log_of (take rows clocks.now) (take rows known.now) (take rows values.now))
        writes.old writes.new result }
{
    let scene = Scene {
        ram: code_ram(sequencer.family, code, marks),
        enable: sequencer.enable,
        log: Log {
            clocks: &clocks[..rows],
            known: &known[..rows],
            values: &values[..rows],
        },
    };
    run_replay::run(scene, executing(sequencer), sequencer.flags, writes)
}

// The register STATUS.
pub(crate) fn status_of(state: State) -> u32
    ensures { result ≡ status_of state }
{
    host_access::read_register(state, MmioAddress(STATUS)).unwrap_or(0)
}
