// The kinds of record.
ghost use Rattle.std.specs.Prelude.{◌≡◌, ◌≤◌};
ghost use Rattle.job_records.specs.Kinds.{byte_of, Names};
ghost use Rattle.job_records.specs.Records.{kind_of, is_out_of_order};

use crate::contents::Counts;

// The most host writes of a job.
const MAX_WRITES: usize = 512;

// What a record's first byte says that it is.
#[derive(Clone, Copy, PartialEq, Eq, Debug)]
pub enum RecordKind {
    Family,
    Range,
    HostWrite,
    Gate,
    Capture,
    Row,
    End,
}

// The byte is that of no kind.
#[derive(Clone, Copy, PartialEq, Eq, Debug)]
pub struct NoKind;

impl TryFrom<u8> for RecordKind {
    type Error = NoKind;

    ghost try_from_gives = { Names };

    fn try_from(byte: u8) -> Result<Self, NoKind> {
        match byte {
            4 => Ok(RecordKind::Family),
            3 => Ok(RecordKind::Range),
            2 => Ok(RecordKind::HostWrite),
            6 => Ok(RecordKind::Gate),
            5 => Ok(RecordKind::Capture),
            1 => Ok(RecordKind::Row),
            0 => Ok(RecordKind::End),
            _ => Err(NoKind),
        }
    }
}

// What is known of a kind, after so many records.
#[derive(Clone, Copy)]
pub struct Kind {
    // its place in the order, from 1
    pub rank: u8,
    // how many bytes follow the byte of kind
    pub body: usize,
    // how many of them a job may have, and how many were read
    pub most: usize,
    pub read: usize,
}

fn entry(rank: u8, body: usize, most: usize, read: usize) -> Kind
    ensures { result ≡ record { rank = rank; body = body; most = most; read = read } }
{
    Kind {
        rank,
        body,
        most,
        read,
    }
}

// A kind without a number of its own that a job may have: none of them is counted.
fn uncounted(rank: u8, body: usize) -> Kind
    ensures { result ≡ record { rank = rank; body = body; most = 1; read = 0 } }
{
    entry(rank, body, 1, 0)
}

// The table of kinds.
#[tactic(auto, unfolding(crate::specs::Records::kind_of))]
pub(crate) fn kind_of(kind: RecordKind, counts: Counts) -> Kind
    ensures value { result ≡ kind_of counts (byte_of kind) }
    ensures body_bound { result.body ≤ 18 }
    ensures rank_bound { 1 ≤ result.rank }
{
    match kind {
        RecordKind::Family => entry(1, 1, 1, counts.families),
        RecordKind::Range => entry(2, 8, script::MAX_RANGES, counts.ranges),
        RecordKind::HostWrite => entry(3, 8, MAX_WRITES, counts.writes),
        RecordKind::Gate => uncounted(4, 18),
        RecordKind::Capture => uncounted(5, 5),
        RecordKind::Row => entry(5, 16, event_log::MAX_ROWS, counts.rows),
        RecordKind::End => uncounted(6, 0),
    }
}

// Ranks never fall from one record to the next, and the first record is of the first rank.
#[tactic(auto, unfolding(crate::specs::Records::is_out_of_order))]
pub(crate) fn is_out_of_order(last: Option<u8>, kind: Kind) -> bool
    ensures { result ≡ is_out_of_order last kind }
{
    match last {
        None => kind.rank != 1,
        Some(last) => kind.rank < last,
    }
}
