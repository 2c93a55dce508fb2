// Reading a job: record after record, to its end or the first one at fault.
ghost use Rattle.std.specs.Prelude.{◌≡◌, ◌≤◌, length};
ghost use Rattle.job_records.specs.Reader.{max_bytes, told, JobReads};
ghost use Rattle.job_records.specs.Inside.{RecordsRead};

use crate::contents::{Job, counted, empty_job, no_counts};
use crate::kinds::{RecordKind, kind_of};
use crate::listing::Record;
use crate::refusal::Refusal;
use probe_captures::{Probes, no_probes};
use words::byte_at;

// The most bytes that a job may have.
pub const MAX_BYTES: usize = 32768;

// What was read: whether the job is refused, the offset of the record at fault or of the end, and what the records before it
// say.
#[derive(Clone, Copy)]
pub struct JobRead {
    pub outcome: Result<(), Refusal>,
    pub at: usize,
    pub job: Job,
}

// Reads a job. One that is too long is refused before its first record is looked at.
pub fn read_job(bytes: &[u8]) -> JobRead
    ensures { JobReads bytes.now (told result) }
{
    if MAX_BYTES < bytes.len() {
        return JobRead {
            outcome: Err(Refusal::TooLong),
            at: 0,
            job: empty_job(),
        };
    }
    read_records(bytes)
}

// Each record passes all its tests before the next is read. What it says is stored in place: a job is 19 kB.
fn read_records(bytes: &[u8]) -> JobRead
    requires { length bytes.now ≤ max_bytes }
    ensures { RecordsRead bytes.now (told result) }
{
    let mut at = 0;
    let mut counts = no_counts();
    let mut bounds = [0u32; 128];
    let mut state = host_fresh::fresh_state(0).state;
    let mut clocks = [0u64; 1024];
    let mut known = [0u32; 1024];
    let mut values = [0u32; 1024];
    let none = no_probes();
    let mut masks = none.masks;
    let mut gates = none.gates;
    let mut extents = none.extents;
    let outcome = loop {
        let record = Record {
            rest: &bytes[at..],
            counts,
        };
        let Ok(kind) = RecordKind::try_from(byte_at(record.rest, 0)) else {
            break Err(Refusal::Unknown);
        };
        let outcome = match kind {
            RecordKind::Family => record.read_family(&mut state),
            RecordKind::Range => record.read_range(&mut bounds),
            RecordKind::HostWrite => record.read_write(&mut state),
            RecordKind::Gate => {
                let event = record.event();
                record.read_gate(&mut masks, &mut gates[event])
            }
            RecordKind::Capture => {
                let event = record.event();
                record.read_capture(&mut masks, gates[event], &mut extents[event])
            }
            RecordKind::Row => record.read_row(&mut masks, &mut clocks, &mut known, &mut values),
            RecordKind::End => break record.read_end(masks, &state),
        };
        if outcome.is_err() {
            break outcome;
        }
        at += 1 + kind_of(kind, counts).body;
        counts = counted(kind, counts);
    };
    let job = Job {
        counts,
        bounds,
        state,
        clocks,
        known,
        values,
        probes: Probes {
            masks,
            gates,
            extents,
        },
    };
    JobRead { outcome, at, job }
}
