// What the first byte of an instruction stands for, and how long that is.
ghost use Rattle.std.specs.Prelude.{◌≡◌};
ghost use Rattle.isa.specs.Opcode.{later_only, opcode_at, size_of};

use isa::Opcode;

// An opcode that families 2 to 4 alone know.
#[inline(always)]
fn later_only(family: u8, opcode: Opcode) -> Opcode
    ensures { result ≡ later_only family opcode }
{
    if 2 <= family { opcode } else { Opcode::Unknown }
}

#[inline(always)]
pub(crate) fn opcode_at(family: u8, first: u8) -> Opcode
    ensures { result ≡ opcode_at family first }
{
    match first {
        0x00..=0x3f => Opcode::Wait,
        0x40 => later_only(family, Opcode::AddrLo),
        0x42 => later_only(family, Opcode::DataLo),
        0x5f => later_only(family, Opcode::Ewait),
        0x7f => Opcode::Exit,
        0x80..=0x9f => Opcode::Unset,
        0xa0..=0xbf => Opcode::Set1,
        0xc0..=0xdf => Opcode::Set0,
        0xe0 => later_only(family, Opcode::Addr),
        0xe2 => later_only(family, Opcode::Data),
        _ => Opcode::Unknown,
    }
}

// How many bytes an instruction takes, its first one included.
#[inline(always)]
pub(crate) fn size_of(opcode: Opcode) -> usize
    ensures { result ≡ size_of opcode }
{
    match opcode {
        Opcode::AddrLo | Opcode::DataLo | Opcode::Ewait => 3,
        Opcode::Addr | Opcode::Data => 5,
        _ => 1,
    }
}
