// What a run and a replay are given.
use event_log::Log;
use isa::MmioAddress;
use isa_fetch::CodeRam;

// What a slot's steps read and none changes.
#[derive(Clone, Copy)]
pub struct Scene<'a> {
    pub ram: CodeRam<'a>,
    // HWSQ_ENABLE
    pub enable: bool,
    pub log: Log<'a>,
}

// The registers that a replay begins with.
#[derive(Clone, Copy)]
pub struct Registers {
    pub addr: MmioAddress,
    pub data: u32,
    pub flags_0: u32,
    pub flags_1: u32,
    // HWSQ_ENABLE
    pub enable: bool,
}
