// What the host is answered.
use machine_state::State;
use refusals::Inaccessible;

// The state after an access, and whether it was made. A refused write's state is as it was.
#[derive(Clone, Copy)]
pub struct Access {
    pub state: State,
    pub outcome: Result<(), Inaccessible>,
}
