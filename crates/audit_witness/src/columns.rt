// The columns that are lent for a log.
ghost use Rattle.std.specs.Prelude.{◌≡◌};
ghost use Rattle.audit_witness.specs.Columns.{columns_log, SameColumns};
ghost use Rattle.audit_witness.specs.Inside.{has_entry, with_row};
ghost use Rattle.audit_witness.specs.Witnesses.{lent_enough};

use crate::showing::MAX_SHOWN;
use event_log::Row;

// A row of the log has an entry in each column.
#[derive(Drop)]
pub struct Columns<'a> {
    pub clocks: &'a mut [u64],
    pub known: &'a mut [u32],
    pub values: &'a mut [u32],
}

impl Columns<'_> {
    // Whether each column has an entry for every row that a log can need.
    pub(crate) fn has_room(&self) -> bool
        ensures { result ≡ lent_enough (columns_log self.now) }
    {
        MAX_SHOWN <= self.clocks.len()
            && MAX_SHOWN <= self.known.len()
            && MAX_SHOWN <= self.values.len()
    }

    // Puts a row into the columns.
    pub(crate) fn put_row(&mut self, row: Row, at: usize)
        requires { has_entry (columns_log self.old) at }
        ensures put { columns_log self.new ≡ with_row (columns_log self.old) at row }
        ensures lent { SameColumns self.old self.new }
    {
        self.clocks[at] = row.clocks;
        self.known[at] = row.known;
        self.values[at] = row.values;
    }
}
