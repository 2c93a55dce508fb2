// The instruction at the start of some bytes.
ghost use Rattle.std.specs.Prelude.{◌≡◌};
ghost use Rattle.isa.specs.Reader.{read_as};
ghost use Rattle.isa.specs.Codec.{Reads};

use crate::opcodes::{opcode_at, size_of};
use crate::operands::{operand16, operand32};
use families::known_family;
use isa::{Instruction, MmioAddress, Opcode};
use refusals::Unreadable;
use words::byte_at;

// The instruction at the start of bytes. Inlined, as all below it: each caller's loop has the whole reader then, and an
// instruction does not come back through memory.
#[inline(always)]
pub fn decode(family: u8, bytes: &[u8]) -> Result<(Instruction, usize), Unreadable>
    ensures { Reads family bytes.now result }
{
    if !known_family(family) {
        return Err(Unreadable::Family);
    }
    if bytes.len() == 0 {
        return Err(Unreadable::Empty);
    }
    let opcode = opcode_at(family, bytes[0]);
    if bytes.len() < size_of(opcode) {
        return Err(Unreadable::Short);
    }
    read_as(opcode, bytes)
}

// The instruction with this opcode, whose operands follow the first byte.
#[inline(always)]
fn read_as(opcode: Opcode, bytes: &[u8]) -> Result<(Instruction, usize), Unreadable>
    ensures { result ≡ read_as opcode bytes.now }
{
    let first = byte_at(bytes, 0);
    // the answer is put together once, after the match: in each arm it would be packed into a word and taken apart again
    let instruction = match opcode {
        Opcode::Wait => {
            let length = first % 4;
            let shift = first / 4;
            Instruction::Wait { length, shift }
        }
        Opcode::AddrLo => Instruction::AddrLo(operand16(bytes)),
        Opcode::DataLo => Instruction::DataLo(operand16(bytes)),
        Opcode::Ewait => {
            let event = byte_at(bytes, 1);
            let value = byte_at(bytes, 2);
            Instruction::Ewait { event, value }
        }
        Opcode::Exit => Instruction::Exit,
        Opcode::Unset => Instruction::Unset(first % 32),
        Opcode::Set1 => Instruction::Set1(first % 32),
        Opcode::Set0 => Instruction::Set0(first % 32),
        Opcode::Addr => Instruction::Addr(MmioAddress(operand32(bytes))),
        Opcode::Data => Instruction::Data(operand32(bytes)),
        Opcode::Unknown => return Err(Unreadable::Unknown),
    };
    Ok((instruction, size_of(opcode)))
}
