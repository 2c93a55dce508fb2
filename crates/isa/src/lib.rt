// The instructions of the hardware sequencer on card families 1 to 4: what they are, how they are spelled and read, and the laws
// between the two; of code only what writer and machine share.
#![tactic(auto)]

mod addresses;
mod instructions;
mod opcodes;
mod waits;

pub use addresses::{CodeAddress, MmioAddress};
pub use instructions::Instruction;
pub use opcodes::Opcode;
pub use waits::wait_fits;
