// The two kinds of address, kept apart by their types.

// A place in code RAM, counted in bytes.
#[derive(Clone, Copy)]
pub struct CodeAddress(pub usize);

// The address of a register in MMIO space.
#[derive(Clone, Copy)]
pub struct MmioAddress(pub u32);
