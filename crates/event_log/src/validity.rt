// Which columns are a log, and which places lie in it.
ghost use Rattle.std.specs.Prelude.{◌≡◌};
ghost use Rattle.event_log.specs.Log.{lent_log};
ghost use Rattle.event_log.specs.Validity.{clocks_in_range, rows_in_range, valid_log, valid_place};

use crate::lent::Log;
use crate::place::Place;

// The most rows of a log.
pub const MAX_ROWS: usize = 1024;

const MAX_CLOCKS: u64 = 281474976710656;

// Whether a row may have so many clocks: 1 to 2^48.
pub fn clocks_in_range(clocks: u64) -> bool
    ensures { result ≡ clocks_in_range clocks }
{
    1 <= clocks && clocks <= MAX_CLOCKS
}

// Whether every row has 1 to 2^48 clocks.
fn rows_in_range(clocks: &[u64]) -> bool
    ensures { result ≡ rows_in_range clocks.now }
{
    clocks.iter().all(|clocks| clocks_in_range(*clocks))
}

impl Log<'_> {
    // Whether the columns are a log: at most 1,024 rows, columns of equal length, clocks in range.
    #[tactic(auto, unfolding(crate::specs::Validity::valid_log))]
    pub fn is_valid(self) -> bool
        ensures { result ≡ valid_log (lent_log self.entry) }
    {
        let rows = self.clocks.len();
        rows <= MAX_ROWS
            && self.known.len() == rows
            && self.values.len() == rows
            && rows_in_range(self.clocks)
    }
}

// Whether the place lies in the log: in a row with clocks left, or at the log's end.
#[tactic(auto, unfolding(crate::specs::Validity::valid_place))]
pub fn valid_place(clocks: &[u64], at: Place) -> bool
    ensures { result ≡ valid_place clocks.now at }
{
    if at.row < clocks.len() {
        at.used < clocks[at.row]
    } else {
        at.row == clocks.len() && at.used == 0
    }
}
