// The log as it is made, one instruction after the other.
ghost use Rattle.std.specs.Prelude.{◌≡◌, true, ◌+◌, ◌^◌, ◌<◌};
ghost use Rattle.audit_verdict.specs.Auditor.{can_release};
ghost use Rattle.audit_verdict.specs.Witness.{event_row, row_after};
ghost use Rattle.audit_witness.specs.Columns.{columns_log, SameColumns};
ghost use Rattle.audit_witness.specs.Inside.{nothing_made, CanExtend, Extends};

use crate::columns::Columns;
use event_log::Row;
use machine_actions::Action;

// The log as far as it is made: the present row, how many rows stand before it, and the steps and writes up to here.
#[derive(Clone, Copy)]
pub struct Timeline {
    pub row: Row,
    pub before: usize,
    pub steps: usize,
    pub writes: usize,
}

// At the entry: one clock, and no event has a reading.
pub(crate) fn begin() -> Timeline
    ensures { result ≡ nothing_made }
{
    Timeline {
        row: Row {
            clocks: 1,
            known: 0,
            values: 0,
        },
        before: 0,
        steps: 0,
        writes: 0,
    }
}

// A row made longer by a wait.
fn longer(row: Row, n: u64) -> Row
    requires { row.clocks + n < 2 ^ 64 }
    ensures { result ≡ row_after (Action.Wait n) row }
{
    Row {
        clocks: row.clocks + n,
        ..row
    }
}

// A row of one clock in which the event has this reading, and no other has any.
fn event_row(event: u8, value: u8) -> Row
    requires { can_release event value ≡ true }
    ensures { result ≡ event_row event value }
{
    let bit: u32 = 1 << (event as u32);
    Row {
        clocks: 1,
        known: bit,
        values: (value as u32) * bit,
    }
}

// One instruction more: a wait makes the row longer, an ewait that it does not release begins the next.
pub(crate) fn extend(action: Action, made: Timeline, columns: &mut Columns<'_>) -> Timeline
    requires { CanExtend action made (columns_log columns.old) }
    ensures extends { Extends action made (columns_log columns.old) (columns_log columns.new) result }
    ensures lent { SameColumns columns.old columns.new }
{
    let steps = made.steps + 1;
    match action {
        Action::Wait(n) => Timeline {
            row: longer(made.row, n),
            steps,
            ..made
        },
        Action::Ewait(event, value) => {
            if log_ewaits::has_reading(made.row.known, made.row.values, event, value) {
                Timeline { steps, ..made }
            } else {
                columns.put_row(made.row, made.before);
                Timeline {
                    row: event_row(event, value),
                    before: made.before + 1,
                    steps,
                    ..made
                }
            }
        }
        Action::Poke(_, _) => Timeline {
            steps,
            writes: made.writes + 1,
            ..made
        },
        _ => Timeline { steps, ..made },
    }
}
