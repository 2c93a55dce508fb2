// The tests that a record of every kind must pass.
ghost use Rattle.std.specs.Prelude.{◌≡◌, IfOk};
ghost use Rattle.job_records.specs.Inside.{shape_number, HasRoom};
ghost use Rattle.job_records.specs.Kinds.{byte_of};
ghost use Rattle.job_records.specs.Number.{refused_number};

use crate::contents::Counts;
use crate::kinds::{RecordKind, is_out_of_order, kind_of};
use crate::refusal::Refusal;

// A record: the input from it on, and what was counted before it.
#[derive(Clone, Copy)]
pub(crate) struct Record<'a> {
    pub(crate) rest: &'a [u8],
    pub(crate) counts: Counts,
}

impl Record<'_> {
    // The first of these tests that the record fails.
    #[tactic(auto, unfolding(crate::specs::Refusals::is_unknown, crate::specs::Refusals::is_cut_short, crate::specs::Refusals::is_too_many))]
    pub(crate) fn test_shape(self, kind: RecordKind) -> Result<(), Refusal>
        ensures number { refused_number result ≡ shape_number self.entry.rest.now (byte_of kind) self.entry.counts }
        ensures room { IfOk result (λ done. HasRoom (byte_of kind) self.entry.counts) }
    {
        let kind = kind_of(kind, self.counts);
        if self.rest.is_empty() {
            return Err(Refusal::Unknown);
        }
        if self.rest.len() <= kind.body {
            return Err(Refusal::CutShort);
        }
        if is_out_of_order(self.counts.rank, kind) {
            return Err(Refusal::OutOfOrder);
        }
        if kind.most <= kind.read {
            return Err(Refusal::TooMany);
        }
        Ok(())
    }
}
