// A verdict, and what the auditor keeps on its way to one.
use isa::{CodeAddress, MmioAddress};
use refusals::Fault;

// No Result: a fault found is what was asked for, and no caller passes it on as an error of its own.
#[derive(Clone, Copy)]
pub enum Verdict {
    Pass {
        // where the script exits
        place: CodeAddress,
        // instructions, exit included
        count: usize,
        writes: usize,
        // clocks of its waits
        clocks: u64,
    },
    // the first fault, and the opcode's place
    Fault(Fault, CodeAddress),
}

// What is known at a place of the script.
#[derive(Clone, Copy)]
pub struct Knowledge {
    // what ADDR holds, where the script has set it
    pub addr: Option<MmioAddress>,
    // whether both halves of DATA are set
    pub data: bool,
    // whether the last touch of flag 16 was set1
    pub paused: bool,
    pub count: usize,
    pub writes: usize,
    pub clocks: u64,
}

// What is said of one instruction.
#[derive(Clone, Copy)]
pub enum Judgement {
    Fine,
    Exit,
    Bad(Fault),
}
