// The auditor, its verdict as numbers.
ghost use Rattle.std.specs.Prelude.{◌≡◌};
ghost use Rattle.script.specs.Script.{script_of};
ghost use Rattle.capi_audit.specs.Verdicts.{audit_reply, HwsqAudit};

use audit_verdict::Verdict;
use isa::CodeAddress;
use isa_fetch::CodeRam;
use script::Script;

#[repr(C)]
#[derive(Clone, Copy)]
pub struct AuditReply {
    // 0 for a pass, or the first fault
    pub verdict: u8,
    // where the script exits, or the fault's place
    pub place: usize,
    // of a pass: instructions, register writes, clocks of the waits
    pub count: usize,
    pub writes: usize,
    pub clocks: u64,
}

// The verdict on a script; the ranges are firsts and lasts, one after the other.
#[unsafe(no_mangle)]
pub extern "C" fn hwsq_audit<'a>(
    family: u8,
    code: &'a [u8],
    marks: &'a [u8],
    entry: usize,
    ranges: &'a [u32],
) -> AuditReply
    ensures { HwsqAudit (script_of family code.now marks.now entry) ranges.now result }
{
    let script = Script {
        ram: CodeRam {
            family,
            code,
            marks,
        },
        entry: CodeAddress(entry),
    };
    AuditReply::from(audit_script::audit(script, ranges))
}

impl From<Verdict> for AuditReply {
    fn from(verdict: Verdict) -> AuditReply
        ensures { result ≡ audit_reply verdict }
    {
        match verdict {
            Verdict::Pass {
                place,
                count,
                writes,
                clocks,
            } => AuditReply {
                verdict: 0,
                place: place.0,
                count,
                writes,
                clocks,
            },
            Verdict::Fault(fault, place) => AuditReply {
                verdict: u8::from(fault),
                place: place.0,
                count: 0,
                writes: 0,
                clocks: 0,
            },
        }
    }
}
