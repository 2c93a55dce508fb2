// A wait of a number of clocks.
ghost use Rattle.log_waits.specs.Wait.{Waits};

use crate::row::unused;
use event_log::Place;

#[derive(Clone, Copy)]
pub struct Waited {
    pub place: Place,
    // what the log's end cut off; 0 where the wait is done
    pub cut: u64,
}

// Waits n clocks from a place on. A row used up means the next row with none used.
#[tactic(auto, using(crate::proofs::WaitLaws::wait_laws))]
pub fn clock_wait(clocks: &[u64], at: Place, n: u64) -> Waited
    ensures { Waits clocks.now at n result }
{
    let mut used = at.used;
    let mut still = n;
    for row in at.row..clocks.len() {
        let rest = unused(clocks[row], used);
        if still < rest {
            return Waited {
                place: Place {
                    row,
                    used: used + still,
                },
                cut: 0,
            };
        }
        still -= rest;
        used = 0;
    }
    Waited {
        place: Place {
            row: at.row.max(clocks.len()),
            used: 0,
        },
        cut: still,
    }
}
