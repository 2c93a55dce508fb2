// What the records read so far say.
ghost use Rattle.std.specs.Prelude.{◌≡◌};
ghost use Rattle.job_records.specs.Job.{CountsFit, no_counts, empty_job};
ghost use Rattle.job_records.specs.Job.{counted as Job·counted};
ghost use Rattle.job_records.specs.Kinds.{byte_of};

use crate::kinds::{RecordKind, kind_of};
use machine_state::State;
use probe_captures::{Probes, no_probes};

// How many records of each kind were read, and the rank of the last one, if there was one.
#[derive(Clone, Copy)]
pub struct Counts {
    pub rank: Option<u8>,
    pub families: usize,
    pub ranges: usize,
    pub writes: usize,
    pub rows: usize,
}

// What a job says. Only the first entries of its arrays are read: two for each range, one for each row. They are arrays with their counts beside them, since
// there is no heap, and columns and bounds as they are lent to auditor and replay.
#[derive(Clone, Copy)]
pub struct Job {
    pub counts: Counts,
    // first and last address of each range
    pub bounds: [u32; 128],
    // the machine after the host writes; its family is the job's
    pub state: State,
    // the log's columns
    pub clocks: [u64; 1024],
    pub known: [u32; 1024],
    pub values: [u32; 1024],
    // its gates, and what their captures came to
    pub probes: Probes,
}

// The counts with one record more of this kind.
#[tactic(auto, unfolding(crate::specs::Job::one_more_of))]
pub(crate) fn counted(kind: RecordKind, counts: Counts) -> Counts
    requires { CountsFit counts }
    ensures { result ≡ Job·counted (byte_of kind) counts }
{
    let counts = Counts {
        rank: Some(kind_of(kind, counts).rank),
        ..counts
    };
    match kind {
        RecordKind::Family => Counts {
            families: counts.families + 1,
            ..counts
        },
        RecordKind::Range => Counts {
            ranges: counts.ranges + 1,
            ..counts
        },
        RecordKind::HostWrite => Counts {
            writes: counts.writes + 1,
            ..counts
        },
        RecordKind::Row => Counts {
            rows: counts.rows + 1,
            ..counts
        },
        RecordKind::Gate | RecordKind::Capture | RecordKind::End => counts,
    }
}

pub(crate) fn no_counts() -> Counts
    ensures { result ≡ no_counts }
{
    Counts {
        rank: None,
        families: 0,
        ranges: 0,
        writes: 0,
        rows: 0,
    }
}

// Nothing read, and no family yet.
pub(crate) fn empty_job() -> Job
    ensures { result ≡ empty_job }
{
    Job {
        counts: no_counts(),
        bounds: [0u32; 128],
        state: host_fresh::fresh_state(0).state,
        clocks: [0u64; 1024],
        known: [0u32; 1024],
        values: [0u32; 1024],
        probes: no_probes(),
    }
}
