// What differs from one card family to the next. A number that names no family has no code RAM,
// no slots and neither property. A family stays a number and no enum, since every call answers for every u8 (`known_family`).
#![tactic(auto)]

ghost use Rattle.std.specs.Prelude.{◌≡◌};
ghost use Rattle.families.specs.Family.{known_family, code_size, slot_count, unknown_hangs, pauses_memory, highest_entry, by_family, within, FamilyRow, Tells};

// The most bytes that a family's code RAM has.
pub const MAX_CODE: usize = 512;

// Whether the number names a family.
pub fn known_family(family: u8) -> bool
    ensures { result ≡ known_family family }
{
    between(1, family, 4)
}

fn between(low: u8, n: u8, high: u8) -> bool
    ensures { result ≡ within low n high }
{
    low <= n && n <= high
}

// The value of the family among one for each, and 0 for a number that names none.
fn by_family(family: u8, one: usize, two: usize, three: usize, four: usize) -> usize
    ensures { result ≡ by_family family one two three four }
{
    match family {
        1 => one,
        2 => two,
        3 => three,
        4 => four,
        _ => 0,
    }
}

// How many bytes the family's code RAM has.
pub fn code_size(family: u8) -> usize
    ensures { Tells code_size (λ (row : FamilyRow). row.code_ram) family result }
{
    by_family(family, 64, 128, 256, MAX_CODE)
}

// How many execution slots the family has: A and B, or A alone.
pub fn slot_count(family: u8) -> usize
    ensures { Tells slot_count (λ (row : FamilyRow). row.slots) family result }
{
    by_family(family, 2, 2, 2, 1)
}

// Whether an unknown opcode hangs the slot; on the other families it is a nop of one byte.
pub fn unknown_hangs(family: u8) -> bool
    ensures { Tells unknown_hangs (λ (row : FamilyRow). row.hangs) family result }
{
    family == 2 || family == 3
}

// Whether flag 16 pauses memory.
pub fn pauses_memory(family: u8) -> bool
    ensures { Tells pauses_memory (λ (row : FamilyRow). row.pauses) family result }
{
    between(2, family, 4)
}

// The highest entry point that the entry registers can hold.
pub fn highest_entry(family: u8) -> usize
    ensures { Tells highest_entry (λ (row : FamilyRow). row.highest) family result }
{
    by_family(family, 255, 255, 255, 511)
}
