// What the first byte of an instruction stands for.

#[derive(Clone, Copy)]
pub enum Opcode {
    Wait,
    AddrLo,
    DataLo,
    Ewait,
    Exit,
    Unset,
    Set1,
    Set0,
    Addr,
    Data,
    Unknown,
}
