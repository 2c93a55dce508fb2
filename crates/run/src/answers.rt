// What the run of a slot answers, and what replay tells of it.
ghost use Rattle.std.specs.Prelude.{◌≡◌};
ghost use Rattle.run.specs.Replay.{ending_number};

use event_log::Place;
use isa::{CodeAddress, MmioAddress};
use machine_flags::Flags;
use machine_state::Slot;

// How a run ended.
#[derive(Clone, Copy, PartialEq, Eq, Debug)]
pub enum Ending {
    Exit,
    // in a wait, the log used up
    Log,
    // at a poke with HWSQ_ENABLE 0
    Poke,
    Hang,
    // at a byte past the code RAM or never uploaded
    Stop,
}

// The number of an ending: they count from 1, so that zeros name none.
impl From<Ending> for u8 {
    fn from(ending: Ending) -> u8
        ensures { result ≡ ending_number ending }
    {
        match ending {
            Ending::Exit => 1,
            Ending::Log => 2,
            Ending::Poke => 3,
            Ending::Hang => 4,
            Ending::Stop => 5,
        }
    }
}

#[derive(Clone, Copy)]
pub struct Replayed {
    pub ending: Ending,
    pub ip: CodeAddress,
    pub addr: MmioAddress,
    pub data: u32,
    pub flags_0: u32,
    pub flags_1: u32,
    pub place: Place,
    // instructions fetched
    pub steps: usize,
    pub writes: usize,
    // clocks spent in waits, passed by in ewaits, and left
    pub waited: u64,
    pub searched: u64,
    pub left: u64,
}

// How far a slot's run came.
#[derive(Clone, Copy)]
pub struct Progress {
    pub slot: Slot,
    pub flags: Flags,
    pub place: Place,
    // instructions fetched
    pub steps: usize,
    pub writes: usize,
    // clocks spent in waits, and passed by in ewaits
    pub waited: u64,
    pub searched: u64,
}
