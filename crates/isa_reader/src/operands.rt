// The operands of an instruction, which are 0 past the end.
ghost use Rattle.std.specs.Prelude.{◌≡◌};
ghost use Rattle.isa.specs.Reader.{operand};

use words::{byte_at, half_word, word};

// The two operand bytes after the first byte, as a number.
pub(crate) fn operand16(bytes: &[u8]) -> u16
    ensures { result ≡ operand 2 bytes.now }
{
    half_word(byte_at(bytes, 1), byte_at(bytes, 2))
}

// The four operand bytes after the first byte, as a number.
pub(crate) fn operand32(bytes: &[u8]) -> u32
    ensures { result ≡ operand 4 bytes.now }
{
    word(
        byte_at(bytes, 1),
        byte_at(bytes, 2),
        byte_at(bytes, 3),
        byte_at(bytes, 4),
    )
}
