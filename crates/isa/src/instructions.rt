// An instruction with its operands.
use crate::addresses::MmioAddress;

#[derive(Clone, Copy)]
pub enum Instruction {
    // (length << 2 * shift) * 32 clocks; the two are kept apart, since they are spelled apart
    Wait { length: u8, shift: u8 },
    AddrLo(u16),
    DataLo(u16),
    Ewait { event: u8, value: u8 },
    Exit,
    Unset(u8),
    Set1(u8),
    Set0(u8),
    Addr(MmioAddress),
    Data(u32),
}
