// The auditor: reads a script from its entry to the first exit and tells the first fault.
ghost use Rattle.std.specs.Prelude.{◌≡◌, true, ℕ, ◌<◌, slice_index};
ghost use Rattle.refusals.specs.Number.{unreadable_number, fault_number};
ghost use Rattle.script.specs.Script.{lent_script};
ghost use Rattle.script.specs.Input.{input_fits};
ghost use Rattle.audit_verdict.specs.Auditor.{fault_of, walk_of};
ghost use Rattle.audit_script.specs.Promises.{Audits};

use crate::assess::{judge, know_next, know_nothing};
use audit_verdict::{Judgement, Verdict};
use isa::CodeAddress;
use refusals::{Fault, Unreadable};
use script::{Script, ranges_fit};

// The verdict on a script; the ranges are firsts and lasts, one after the other.
pub fn audit(script: Script<'_>, ranges: &[u32]) -> Verdict
    ensures { Audits (lent_script script.entry) ranges.now result }
{
    are_bytes(script.ram.code);
    if !script.fits() || !ranges_fit(ranges) {
        return Verdict::Fault(Fault::Input, CodeAddress(0));
    }
    walk(script, ranges)
}

// Does nothing: of a slice that is a parameter a proof knows that its elements are bytes, and of one in a struct it does not.
fn are_bytes(code: &[u8])
    ensures { (i : ℕ) → slice_index code.now i < 256 }
{}

// Why there is no instruction, as the fault with the reader's number.
fn fault_of(why: Unreadable) -> Fault
    ensures value { result ≡ fault_of why }
    ensures result_value { fault_number result ≡ unreadable_number why }
{
    match why {
        Unreadable::Family => Fault::Input,
        Unreadable::Empty => Fault::PastRam,
        Unreadable::Unknown => Fault::Unknown,
        Unreadable::Short => Fault::PastRam,
        Unreadable::NotUploaded => Fault::NotUploaded,
    }
}

// From the entry to the first exit or fault.
fn walk(script: Script<'_>, ranges: &[u32]) -> Verdict
    requires { input_fits (lent_script script) ranges.now ≡ true }
    ensures { result ≡ walk_of (lent_script script.entry) ranges.now }
{
    let mut at = script.entry.0;
    let mut known = know_nothing();
    loop {
        let place = CodeAddress(at);
        let found = script.ram.fetch(place);
        let Ok((instruction, length)) = found else {
            return Verdict::Fault(fault_of(isa_fetch::reason_of(found)), place);
        };
        let action = machine_actions::action_of(instruction);
        match judge(script.ram.family, ranges, action, known) {
            Judgement::Fine => {
                known = know_next(action, known);
                at += length;
            }
            Judgement::Exit => {
                return Verdict::Pass {
                    place,
                    count: known.count + 1,
                    writes: known.writes,
                    clocks: known.clocks,
                };
            }
            Judgement::Bad(fault) => return Verdict::Fault(fault, place),
        }
    }
}
