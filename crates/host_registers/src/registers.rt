// The registers of the sequencer.
use isa::CodeAddress;

#[derive(Clone, Copy)]
pub enum Register {
    Control,
    EntryPoint,
    Status,
    Trigger,
    Flags0,
    Flags1,
    EntryPointHigh,
    // four bytes of code RAM, from this place on
    Code(CodeAddress),
    Events,
    Unlisted,
}
