// Replay, its answer as numbers.
ghost use Rattle.std.specs.Prelude.{◌≡◌};
ghost use Rattle.capi_replay.specs.Replays.{ended_reply, unreplayed_reply, replay_reply, HwsqReplay};
ghost use Rattle.event_log.specs.Log.{log_of};
ghost use Rattle.run.specs.Registers.{registers_of};
ghost use Rattle.script.specs.Script.{script_of};

use event_log::Log;
use isa::{CodeAddress, MmioAddress};
use isa_fetch::CodeRam;
use refusals::Unreplayable;
use run::{Registers, Replayed};
use script::Script;

#[repr(C)]
#[derive(Clone, Copy, Default)]
pub struct ReplayReply {
    // 0, or why there was no run
    pub refusal: u8,
    // 1 exit, 2 log, 3 poke, 4 hang, 5 stop; 0 where there was no run
    pub ending: u8,
    pub addr: u32,
    pub data: u32,
    pub flags_0: u32,
    pub flags_1: u32,
    pub ip: usize,
    // the place in the log
    pub row: usize,
    pub used: u64,
    // instructions fetched, and register writes
    pub steps: usize,
    pub writes: usize,
    // clocks spent in waits, passed by in ewaits, and left
    pub waited: u64,
    pub searched: u64,
    pub left: u64,
}

// Runs the script under the log. The writes go into the lent entries, address and data of each; the other entries stay as
// lent, and all of them where there was no run.
#[unsafe(no_mangle)]
pub extern "C" fn hwsq_replay<'a>(
    family: u8,
    code: &'a [u8],
    marks: &'a [u8],
    entry: usize,
    addr: u32,
    data: u32,
    flags_0: u32,
    flags_1: u32,
    enable: bool,
    clocks: &'a [u64],
    known: &'a [u32],
    values: &'a [u32],
    writes: &mut [u32],
) -> ReplayReply
    ensures { HwsqReplay (script_of family code.now marks.now entry) (registers_of addr «data» flags_0 flags_1 enable)
        (log_of clocks.now known.now values.now) writes.old writes.new result }
{
    let script = Script {
        ram: CodeRam {
            family,
            code,
            marks,
        },
        entry: CodeAddress(entry),
    };
    let registers = Registers {
        addr: MmioAddress(addr),
        data,
        flags_0,
        flags_1,
        enable,
    };
    let log = Log {
        clocks,
        known,
        values,
    };
    ReplayReply::from(run_replay::replay(script, registers, log, writes))
}

impl From<Result<Replayed, Unreplayable>> for ReplayReply {
    fn from(answer: Result<Replayed, Unreplayable>) -> ReplayReply
        ensures { result ≡ replay_reply answer }
    {
        match answer {
            Ok(told) => ReplayReply::from(told),
            Err(why) => unreplayed(u8::from(why)),
        }
    }
}

fn unreplayed(refusal: u8) -> ReplayReply
    ensures { result ≡ unreplayed_reply refusal }
{
    ReplayReply {
        refusal,
        ..ReplayReply::default()
    }
}

impl From<Replayed> for ReplayReply {
    fn from(told: Replayed) -> ReplayReply
        ensures { result ≡ ended_reply told }
    {
        ReplayReply {
            refusal: 0,
            ending: u8::from(told.ending),
            addr: told.addr.0,
            data: told.data,
            flags_0: told.flags_0,
            flags_1: told.flags_1,
            ip: told.ip.0,
            row: told.place.row,
            used: told.place.used,
            steps: told.steps,
            writes: told.writes,
            waited: told.waited,
            searched: told.searched,
            left: told.left,
        }
    }
}
