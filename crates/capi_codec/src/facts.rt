// What differs from one card family to the next.
ghost use Rattle.std.specs.Prelude.{◌≡◌};
ghost use Rattle.capi_codec.specs.Facts.{unknown_number, family_reply};

#[repr(C)]
#[derive(Clone, Copy)]
pub struct FamilyReply {
    // 0, or 9 for a number that names no family
    pub refusal: u8,
    // an unknown opcode hangs the slot
    pub hangs: bool,
    // flag 16 pauses memory
    pub pauses: bool,
    // bytes of code RAM
    pub size: usize,
    pub slots: usize,
    // the highest entry point
    pub entry: usize,
}

#[unsafe(no_mangle)]
pub extern "C" fn hwsq_family(family: u8) -> FamilyReply
    ensures { result ≡ family_reply family }
{
    let refusal = unknown_number(family);
    let hangs = families::unknown_hangs(family);
    let pauses = families::pauses_memory(family);
    let size = families::code_size(family);
    let slots = families::slot_count(family);
    let entry = families::highest_entry(family);
    FamilyReply {
        refusal,
        hangs,
        pauses,
        size,
        slots,
        entry,
    }
}

fn unknown_number(family: u8) -> u8
    ensures { result ≡ unknown_number family }
{
    if families::known_family(family) { 0 } else { 9 }
}
