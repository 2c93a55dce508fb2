// The verdict, and the script's way to its place, written down as a log.
ghost use Rattle.std.specs.Prelude.{ℕ, ◌≡◌, true, ◌<◌, eqb, slice_index};
ghost use Rattle.script.specs.Script.{lent_script};
ghost use Rattle.script.specs.Input.{input_fits};
ghost use Rattle.audit_verdict.specs.Auditor.{verdict_number, audit_of};
ghost use Rattle.audit_verdict.specs.Witness.{place_of};
ghost use Rattle.audit_witness.specs.Columns.{columns_log, SameColumns};
ghost use Rattle.audit_witness.specs.Inside.{Follows};
ghost use Rattle.audit_witness.specs.Witnesses.{lent_enough, way, Witnesses};

use crate::columns::Columns;
use crate::rows::{Timeline, begin, extend};
use audit_verdict::Verdict;
use isa::CodeAddress;
use refusals::{Fault, Unshowable};
use script::Script;

// One row at the entry, and one for each ewait of three bytes.
pub const MAX_SHOWN: usize = 171;

// The verdict, the rows of the log, and the steps and writes before the place.
#[derive(Clone, Copy)]
pub struct Shown {
    pub verdict: Verdict,
    pub rows: usize,
    pub steps: usize,
    pub writes: usize,
}

// The verdict on a script, and a log that shows it in the first entries of the lent columns; the others stay as lent.
pub fn witness(
    script: Script<'_>,
    ranges: &[u32],
    columns: &mut Columns<'_>,
) -> Result<Shown, Unshowable>
    ensures witnesses { Witnesses (lent_script script.entry) ranges.now (columns_log columns.old) (columns_log columns.new) result }
    ensures lent { SameColumns columns.old columns.new }
{
    are_bytes(script.ram.code);
    let verdict = audit_script::audit(script, ranges);
    if is_input(verdict) {
        return Err(Unshowable::Input);
    }
    if !columns.has_room() {
        return Err(Unshowable::Room);
    }
    let made = follow(script, ranges, place_of(verdict), columns);
    Ok(Shown {
        verdict,
        rows: made.before + 1,
        steps: made.steps,
        writes: made.writes,
    })
}

// Does nothing: of a slice that is a parameter a proof knows that its elements are bytes, and of one in a struct it does not.
fn are_bytes(code: &[u8])
    ensures { (i : ℕ) → slice_index code.now i < 256 }
{}

// Whether the auditor was handed no script with ranges.
fn is_input(verdict: Verdict) -> bool
    ensures { result ≡ eqb (verdict_number verdict) 9 }
{
    matches!(verdict, Verdict::Fault(Fault::Input, _))
}

// Where the script exits, or the fault's place.
fn place_of(verdict: Verdict) -> CodeAddress
    ensures { result.0 ≡ place_of verdict }
{
    match verdict {
        Verdict::Pass { place, .. } => place,
        Verdict::Fault(_, place) => place,
    }
}

// From the entry to the place, with every row put into the lent columns.
fn follow(
    script: Script<'_>,
    ranges: &[u32],
    place: CodeAddress,
    columns: &mut Columns<'_>,
) -> Timeline
    requires { (input_fits (lent_script script) ranges.now ≡ true)
        × (place.0 ≡ place_of (audit_of (lent_script script) ranges.now))
        × (lent_enough (columns_log columns.old) ≡ true)
        × ((i : ℕ) → slice_index script.ram.code.now i < 256) }
    ensures follows { Follows (way (lent_script script.entry) ranges.now) (columns_log columns.old) (columns_log columns.new) result }
    ensures lent { SameColumns columns.old columns.new }
{
    let mut at = script.entry.0;
    let mut made = begin();
    while at != place.0 {
        let Ok((instruction, length)) = script.ram.fetch(CodeAddress(at)) else {
            break;
        };
        made = extend(machine_actions::action_of(instruction), made, columns);
        at += length;
    }
    columns.put_row(made.row, made.before);
    made
}
