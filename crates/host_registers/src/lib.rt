// The host's registers: where each stands, what a write does and what a read gives. Definitions and their laws alone; fresh and host have the calls.
#![tactic(auto)]

mod access;
mod registers;

pub use access::Access;
pub use registers::Register;
