// Which script may be audited or replayed.
ghost use Rattle.std.specs.Prelude.{◌≡◌};
ghost use Rattle.script.specs.Input.{marks_plain, script_fits};
ghost use Rattle.script.specs.Script.{lent_script};

use isa::CodeAddress;
use isa_fetch::CodeRam;

// A script as auditor and replay are given it: the code RAM that it lies in, and where its first instruction stands.
#[derive(Clone, Copy)]
pub struct Script<'a> {
    pub ram: CodeRam<'a>,
    pub entry: CodeAddress,
}

// Whether each mark is 0 or 1: whether the largest is. The loop has no early exit, so that the compiler takes many at a time.
fn marks_plain(marks: &[u8]) -> bool
    ensures { result ≡ marks_plain marks.now }
{
    marks.iter().fold(0, |most, mark| most.max(*mark)) <= 1
}

impl Script<'_> {
    // Whether the family is known, code and marks are of its size, marks are plain and the entry is one that its registers
    // can hold.
    #[tactic(auto, unfolding(crate::specs::Input::script_fits))]
    pub fn fits(self) -> bool
        ensures { result ≡ script_fits (lent_script self.entry) }
    {
        let ram = self.ram;
        families::known_family(ram.family)
            && ram.code.len() == families::code_size(ram.family)
            && ram.marks.len() == families::code_size(ram.family)
            && marks_plain(ram.marks)
            && self.entry.0 <= families::highest_entry(ram.family)
    }
}
