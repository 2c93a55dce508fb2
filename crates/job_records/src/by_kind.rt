// A record read: one call a kind makes its tests, in the order of the listing, and stores what it says. Where it is refused
// nothing is stored.
ghost use Rattle.std.specs.Prelude.{◌≡◌};
ghost use Rattle.event_log.specs.Log.{log_of};
ghost use Rattle.host_registers.specs.Promises.{outcome_number};
ghost use Rattle.job_records.specs.Number.{refused_number};
ghost use Rattle.job_records.specs.Records.{family, allowed_range, host_write, log_row, end};
ghost use Rattle.job_records.specs.Refusals.{refusal_of};
ghost use Rattle.words.specs.Numbers.{byte_at};
ghost use Rattle.job_records.specs.Inside.{write_tests, RangeRead, RowStored, StateStored};

use crate::kinds::RecordKind;
use crate::listing::Record;
use crate::refusal::Refusal;
use isa::MmioAddress;
use machine_state::State;
use probe_captures::{Masks, after_row, row_known, row_values};
use refusals::Inaccessible;
use words::{byte_at, long_word, word_at};

// What the listing says of a host write. No job has one for a family that there is not.
fn write_outcome(outcome: Result<(), Inaccessible>) -> Result<(), Refusal>
    ensures { refused_number result ≡ write_tests (outcome_number outcome) }
{
    match outcome {
        Ok(()) | Err(Inaccessible::Family) => Ok(()),
        Err(Inaccessible::Register) => Err(Refusal::Register),
        Err(Inaccessible::Executing) => Err(Refusal::Executing),
    }
}

impl Record<'_> {
    // A family, from which a fresh state is made.
    pub(crate) fn read_family(self, state: &mut State) -> Result<(), Refusal>
        requires { byte_at self.rest.now 0 ≡ family }
        ensures { StateStored self.entry.rest.now self.entry.counts state.old state.new (refused_number result) }
    {
        self.test_shape(RecordKind::Family)?;
        let family = byte_at(self.rest, 1);
        if !families::known_family(family) {
            return Err(Refusal::Family);
        }
        *state = host_fresh::fresh_state(family).state;
        Ok(())
    }

    // A range is the next two bounds.
    #[tactic(auto, unfolding(crate::specs::Records::kind_of))]
    pub(crate) fn read_range(self, bounds: &mut [u32; 128]) -> Result<(), Refusal>
        requires { byte_at self.rest.now 0 ≡ allowed_range }
        ensures { RangeRead self.entry.rest.now self.entry.counts bounds.old bounds.new (refused_number result) }
    {
        self.test_shape(RecordKind::Range)?;
        let first = word_at(self.rest, 1);
        let last = word_at(self.rest, 5);
        if last < first {
            return Err(Refusal::Range);
        }
        let n = self.counts.ranges;
        bounds[2 * n] = first;
        bounds[2 * n + 1] = last;
        Ok(())
    }

    // A host write.
    pub(crate) fn read_write(self, state: &mut State) -> Result<(), Refusal>
        requires { byte_at self.rest.now 0 ≡ host_write }
        ensures { StateStored self.entry.rest.now self.entry.counts state.old state.new (refused_number result) }
    {
        self.test_shape(RecordKind::HostWrite)?;
        let address = MmioAddress(word_at(self.rest, 1));
        write_outcome(host_access::write(state, address, word_at(self.rest, 5)))
    }

    // A row is the next entry of each column. What was captured for it is used up.
    #[tactic(auto, unfolding(crate::specs::Records::kind_of))]
    pub(crate) fn read_row(
        self,
        masks: &mut Masks,
        clocks: &mut [u64; 1024],
        known: &mut [u32; 1024],
        values: &mut [u32; 1024],
    ) -> Result<(), Refusal>
        requires { byte_at self.rest.now 0 ≡ log_row }
        ensures { RowStored self.entry.rest.now self.entry.counts masks.old masks.new (log_of clocks.old known.old values.old)
            (log_of clocks.new known.new values.new) (refused_number result) }
    {
        self.test_shape(RecordKind::Row)?;
        let length = long_word(word_at(self.rest, 1), word_at(self.rest, 5));
        if !event_log::clocks_in_range(length) {
            return Err(Refusal::Clocks);
        }
        let n = self.counts.rows;
        clocks[n] = length;
        known[n] = row_known(*masks, word_at(self.rest, 9));
        values[n] = row_values(*masks, word_at(self.rest, 13));
        *masks = after_row(*masks);
        Ok(())
    }

    // The end, where no capture is left and a slot must execute.
    pub(crate) fn read_end(self, masks: Masks, state: &State) -> Result<(), Refusal>
        requires { byte_at self.rest.now 0 ≡ end }
        ensures { refused_number result ≡ refusal_of self.entry.rest.now self.entry.counts masks state.now }
    {
        self.test_shape(RecordKind::End)?;
        if masks.captured != 0 {
            return Err(Refusal::Probe);
        }
        if 1 < self.rest.len() {
            return Err(Refusal::BytesAfter);
        }
        if !machine_execution::some_executes(state.family, state.a.mode, state.b.mode) {
            return Err(Refusal::Idle);
        }
        Ok(())
    }
}
