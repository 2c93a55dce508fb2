// Fetching an instruction from code RAM: the reader's answer, and whether every byte of it was uploaded.
#![tactic(auto)]

ghost use Rattle.std.specs.Prelude.{◌≡◌, length, get_or};
ghost use Rattle.isa_fetch.specs.Fetch.{all_marked, check_marks, code_ram_of, reason_of, past_opcode, Fetches};

use isa::{CodeAddress, Instruction};
use refusals::Unreadable;
use words::byte_at;

// A family's code RAM as it is lent: its bytes, and 1 for each that was uploaded. Bytes past the family's size are no part of it.
#[derive(Clone, Copy)]
pub struct CodeRam<'a> {
    pub family: u8,
    pub code: &'a [u8],
    pub marks: &'a [u8],
}

impl CodeRam<'_> {
    // How many bytes of the family's code RAM are there.
    fn length(self) -> usize
        ensures { result ≡ length (code_ram_of self.entry.family self.entry.code.now) }
    {
        self.code.len().min(families::code_size(self.family))
    }

    // The instruction at a place, and how many bytes it takes. The first byte is tested before its operands, and whether a
    // byte lies in the RAM before whether it was uploaded.
    #[inline(always)]
    pub fn fetch(self, place: CodeAddress) -> Result<(Instruction, usize), Unreadable>
        ensures { Fetches self.entry.family self.entry.code.now self.entry.marks.now place.0 result }
    {
        let at = place.0;
        let end = self.length();
        if end <= at {
            return Err(Unreadable::Empty);
        }
        if byte_at(self.marks, at) != 1 {
            return Err(Unreadable::NotUploaded);
        }
        let found = isa_reader::decode(self.family, &self.code[at..end]);
        check_marks(found, self.marks, at)
    }
}

// Whether each of the n bytes from a place on is marked as uploaded.
fn all_marked(marks: &[u8], at: usize, n: usize) -> bool
    ensures { result ≡ all_marked n marks.now at }
{
    for i in 0..n {
        if byte_at(marks, at + i) != 1 {
            return false;
        }
    }
    true
}

// The answer, unless a byte of its instruction was never uploaded. The first byte was, so most instructions are done with.
fn check_marks(
    found: Result<(Instruction, usize), Unreadable>,
    marks: &[u8],
    at: usize,
) -> Result<(Instruction, usize), Unreadable>
    requires { get_or marks.now at 0 ≡ 1 }
    ensures { result ≡ check_marks marks.now at found }
{
    let (instruction, length) = found?;
    if length < 2 || all_marked(marks, at, length) {
        Ok((instruction, length))
    } else {
        Err(Unreadable::NotUploaded)
    }
}

// Why nothing was fetched. Of an instruction it says that there is no byte, which no caller asks.
pub fn reason_of(found: Result<(Instruction, usize), Unreadable>) -> Unreadable
    ensures { result ≡ reason_of found }
{
    match found {
        Ok(_) => Unreadable::Empty,
        Err(why) => why,
    }
}

// The place past an opcode of one byte. An opcode lies below 512, so no other place has one past it.
pub fn past_opcode(place: CodeAddress) -> CodeAddress
    ensures { result ≡ record { 0 = past_opcode place.0 } }
{
    let at = place.0;
    if at < families::MAX_CODE {
        CodeAddress(at + 1)
    } else {
        place
    }
}
