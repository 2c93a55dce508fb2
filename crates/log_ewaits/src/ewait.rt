// A wait for an event: a search over the rows.
ghost use Rattle.std.specs.Prelude.{◌≡◌};
ghost use Rattle.log_ewaits.specs.Ewait.{has_reading, Ewaits};
ghost use Rattle.event_log.specs.Log.{lent_log};

use crate::row::mask_at;
use event_log::{Log, Place};
use log_waits::unused;

// Where the search ended, and the clocks that it passed by. No Option, since both ends carry clocks, and no Result, since neither is an error.
#[derive(Clone, Copy)]
pub enum Released {
    At(Place, u64),
    End(u64),
}

// Whether the row has a reading of the event, and it is the value.
#[tactic(auto, unfolding(crate::specs::Ewait::has_reading))]
pub fn has_reading(known: u32, values: u32, event: u8, value: u8) -> bool
    ensures { result ≡ has_reading known values event value }
{
    let bit = event as u32;
    bit < 32 && (known >> bit) % 2 == 1 && (values >> bit) % 2 == value as u32
}

// Waits for the event from a place on: the first row that has the reading releases it. The clocks passed by
// are kept in 64 bits; on a valid log they do not wrap.
pub fn event_wait(log: Log<'_>, at: Place, event: u8, value: u8) -> Released
    ensures { Ewaits (lent_log log.entry) at event value result }
{
    let mut row = at.row;
    let mut used = at.used;
    let mut passed: u64 = 0;
    let released = loop {
        if log.clocks.len() <= row {
            break Released::End(passed);
        }
        let known = mask_at(log.known, row);
        let values = mask_at(log.values, row);
        if has_reading(known, values, event, value) {
            break Released::At(Place { row, used }, passed);
        }
        passed = passed.wrapping_add(unused(log.clocks[row], used));
        row += 1;
        used = 0;
    };
    released
}
