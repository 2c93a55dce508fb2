// How time passes during an action.
ghost use Rattle.std.specs.Prelude.{◌≡◌};
ghost use Rattle.machine_time.specs.Time.{at_once, after_wait, after_ewait, Elapses};
ghost use Rattle.log_waits.specs.Wait.{wait_of};
ghost use Rattle.event_log.specs.Log.{lent_log};

use event_log::{Log, Place};
use log_ewaits::Released;
use machine_actions::Action;

#[derive(Clone, Copy)]
pub struct Elapsed {
    pub place: Place,
    // whether the action is done; only a wait or an ewait may not be
    pub finished: bool,
    // clocks spent in a wait, and clocks that an ewait's search passed by
    pub waited: u64,
    pub searched: u64,
}

fn at_once(place: Place) -> Elapsed
    ensures { result ≡ at_once place }
{
    Elapsed {
        place,
        finished: true,
        waited: 0,
        searched: 0,
    }
}

fn after_wait(clocks: &[u64], at: Place, n: u64) -> Elapsed
    ensures { result ≡ after_wait n (wait_of clocks.now at n) }
{
    let waited = log_waits::clock_wait(clocks, at, n);
    let cut = waited.cut;
    Elapsed {
        place: waited.place,
        finished: cut == 0,
        waited: n - cut,
        searched: 0,
    }
}

fn after_ewait(released: Released, rows: usize) -> Elapsed
    ensures { result ≡ after_ewait rows released }
{
    match released {
        Released::At(place, passed) => Elapsed {
            place,
            finished: true,
            waited: 0,
            searched: passed,
        },
        Released::End(passed) => Elapsed {
            place: Place { row: rows, used: 0 },
            finished: false,
            waited: 0,
            searched: passed,
        },
    }
}

pub fn elapse(action: Action, log: Log<'_>, at: Place) -> Elapsed
    ensures { Elapses action (lent_log log.entry) at result }
{
    match action {
        Action::Wait(n) => after_wait(log.clocks, at, n),
        Action::Ewait(event, value) => after_ewait(
            log_ewaits::event_wait(log, at, event, value),
            log.clocks.len(),
        ),
        _ => at_once(at),
    }
}
