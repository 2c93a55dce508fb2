// The verdict and the log that shows it, as numbers.
ghost use Rattle.std.specs.Prelude.{◌≡◌, cond};
ghost use Rattle.event_log.specs.Log.{log_of};
ghost use Rattle.script.specs.Script.{script_of};
ghost use Rattle.capi_witness.specs.Showing.{told_reply, shown_reply, unshown_reply, witness_reply, HwsqWitness};

use audit_verdict::Verdict;
use audit_witness::{Columns, Shown};
use isa::CodeAddress;
use isa_fetch::CodeRam;
use refusals::Unshowable;
use script::Script;

#[repr(C)]
#[derive(Clone, Copy, Default)]
pub struct WitnessReply {
    // 0, 9 or 14
    pub refusal: u8,
    // this, place, count and clocks as hwsq_audit gives them; refused: the refusal
    pub verdict: u8,
    // ADDR and DATA of the second start that 4 and 5 take; the first has 0 in both
    pub addr: u32,
    pub data: u32,
    pub place: usize,
    pub count: usize,
    pub clocks: u64,
    // rows of the log; steps and register writes before the place
    pub rows: usize,
    pub steps: usize,
    pub writes: usize,
}

// The verdict on a script, and a log that shows it in the first entries of the lent columns.
#[unsafe(no_mangle)]
pub extern "C" fn hwsq_witness<'a>(
    family: u8,
    code: &'a [u8],
    marks: &'a [u8],
    entry: usize,
    ranges: &'a [u32],
    clocks: &mut [u64],
    known: &mut [u32],
    values: &mut [u32],
) -> WitnessReply
    ensures { HwsqWitness (script_of family code.now marks.now entry) ranges.now
        (log_of clocks.old known.old values.old) (log_of clocks.new known.new values.new) result }
{
    let script = Script {
        ram: CodeRam {
            family,
            code,
            marks,
        },
        entry: CodeAddress(entry),
    };
    let mut columns = Columns {
        clocks,
        known,
        values,
    };
    WitnessReply::from(audit_witness::witness(script, ranges, &mut columns))
}

impl From<Result<Shown, Unshowable>> for WitnessReply {
    fn from(answer: Result<Shown, Unshowable>) -> WitnessReply
        ensures { result ≡ witness_reply answer }
    {
        match answer {
            Ok(shown) => WitnessReply::from(shown),
            Err(why) => unshown_reply(u8::from(why)),
        }
    }
}

// What the second start has in a register: 65536 in the one that matters.
fn second_word(matters: bool) -> u32
    ensures { result ≡ cond matters 65536 0 }
{
    if matters { 65536 } else { 0 }
}

impl From<Shown> for WitnessReply {
    fn from(shown: Shown) -> WitnessReply
        ensures { result ≡ shown_reply shown }
    {
        match shown.verdict {
            Verdict::Pass {
                place,
                count,
                clocks,
                ..
            } => told_reply(0, place, count, clocks, shown),
            Verdict::Fault(fault, place) => told_reply(u8::from(fault), place, 0, 0, shown),
        }
    }
}

fn told_reply(
    verdict: u8,
    place: CodeAddress,
    count: usize,
    clocks: u64,
    shown: Shown,
) -> WitnessReply
    ensures { result ≡ told_reply verdict place count clocks shown }
{
    WitnessReply {
        refusal: 0,
        verdict,
        addr: second_word(verdict == 4),
        data: second_word(verdict == 5),
        place: place.0,
        count,
        clocks,
        rows: shown.rows,
        steps: shown.steps,
        writes: shown.writes,
    }
}

fn unshown_reply(refusal: u8) -> WitnessReply
    ensures { result ≡ unshown_reply refusal }
{
    WitnessReply {
        refusal,
        verdict: refusal, // 0 would be a pass
        ..WitnessReply::default()
    }
}
