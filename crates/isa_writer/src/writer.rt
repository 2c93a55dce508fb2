// The instruction writer: the one spelling of an instruction, laid into lent bytes.
ghost use Rattle.std.specs.Prelude.{◌≡◌, ◌≤◌, true, ◌∷◌, ◌++◌, length, drop};
ghost use Rattle.isa.specs.Writer.{opcode_of, on_family, operands_fit, le_bytes, spell};
ghost use Rattle.isa.specs.Codec.{InType, Writes};
ghost use Rattle.isa_writer.specs.Spelling.{spelling_bytes};

use families::known_family;
use isa::{Instruction, Opcode, wait_fits};
use refusals::Unwritable;

// The bytes of an instruction.
#[derive(Clone, Copy)]
pub enum Spelling {
    One(u8),
    Three(u8, u8, u8),
    Five(u8, u8, u8, u8, u8),
}

// Writes the instruction's bytes at the start of out, whose other bytes stay as they were.
pub fn encode(family: u8, instruction: Instruction, out: &mut [u8]) -> Result<usize, Unwritable>
    ensures { Writes family instruction out.old out.new result }
{
    if !known_family(family) {
        return Err(Unwritable::Family);
    }
    if !on_family(family, opcode_of(instruction)) {
        return Err(Unwritable::NotOnFamily);
    }
    if !operands_fit(instruction) {
        return Err(Unwritable::Operand);
    }
    let spelling = spelled(instruction);
    let n = width(spelling);
    if out.len() < n {
        return Err(Unwritable::Room);
    }
    put(spelling, out);
    Ok(n)
}

fn opcode_of(instruction: Instruction) -> Opcode
    ensures { result ≡ opcode_of instruction }
{
    match instruction {
        Instruction::Wait { .. } => Opcode::Wait,
        Instruction::AddrLo(_) => Opcode::AddrLo,
        Instruction::DataLo(_) => Opcode::DataLo,
        Instruction::Ewait { .. } => Opcode::Ewait,
        Instruction::Exit => Opcode::Exit,
        Instruction::Unset(_) => Opcode::Unset,
        Instruction::Set1(_) => Opcode::Set1,
        Instruction::Set0(_) => Opcode::Set0,
        Instruction::Addr(_) => Opcode::Addr,
        Instruction::Data(_) => Opcode::Data,
    }
}

// Whether the family knows the opcode.
fn on_family(family: u8, opcode: Opcode) -> bool
    ensures { result ≡ on_family family opcode }
{
    match opcode {
        Opcode::Wait | Opcode::Exit | Opcode::Unset | Opcode::Set1 | Opcode::Set0 => true,
        Opcode::AddrLo | Opcode::DataLo | Opcode::Ewait | Opcode::Addr | Opcode::Data => 2
            <= family,
        Opcode::Unknown => false,
    }
}

// Whether the first byte has room for the operands that it holds.
fn operands_fit(instruction: Instruction) -> bool
    ensures { result ≡ operands_fit instruction }
{
    match instruction {
        Instruction::Wait { length, shift } => wait_fits(length, shift),
        Instruction::Unset(flag) | Instruction::Set1(flag) | Instruction::Set0(flag) => flag <= 31,
        _ => true,
    }
}

fn spelled(instruction: Instruction) -> Spelling
    requires { operands_fit instruction ≡ true }
    ensures { (spelling_bytes result ≡ spell instruction) × InType instruction }
{
    match instruction {
        Instruction::Wait { length, shift } => Spelling::One(length + 4 * shift),
        Instruction::AddrLo(low) => spelled16(0x40, low),
        Instruction::DataLo(low) => spelled16(0x42, low),
        Instruction::Ewait { event, value } => Spelling::Three(0x5f, event, value),
        Instruction::Exit => Spelling::One(0x7f),
        Instruction::Unset(flag) => Spelling::One(0x80 + flag),
        Instruction::Set1(flag) => Spelling::One(0xa0 + flag),
        Instruction::Set0(flag) => Spelling::One(0xc0 + flag),
        Instruction::Addr(address) => spelled32(0xe0, address.0),
        Instruction::Data(word) => spelled32(0xe2, word),
    }
}

fn spelled16(first: u8, x: u16) -> Spelling
    ensures { spelling_bytes result ≡ first ∷ le_bytes 2 x }
{
    let [low, high] = x.to_le_bytes();
    Spelling::Three(first, low, high)
}

fn spelled32(first: u8, x: u32) -> Spelling
    ensures { spelling_bytes result ≡ first ∷ le_bytes 4 x }
{
    let [a, b, c, d] = x.to_le_bytes();
    Spelling::Five(first, a, b, c, d)
}

fn width(spelling: Spelling) -> usize
    ensures { result ≡ length (spelling_bytes spelling) }
{
    match spelling {
        Spelling::One(_) => 1,
        Spelling::Three(_, _, _) => 3,
        Spelling::Five(_, _, _, _, _) => 5,
    }
}

// Lays the bytes over the start of out.
fn put(spelling: Spelling, out: &mut [u8])
    requires { length (spelling_bytes spelling) ≤ length out.old }
    ensures { out.new ≡ spelling_bytes spelling ++ drop (length (spelling_bytes spelling)) out.old }
{
    match spelling {
        Spelling::One(a) => {
            out[0] = a;
        }
        Spelling::Three(a, b, c) => {
            out[0] = a;
            out[1] = b;
            out[2] = c;
        }
        Spelling::Five(a, b, c, d, e) => {
            out[0] = a;
            out[1] = b;
            out[2] = c;
            out[3] = d;
            out[4] = e;
        }
    }
}
