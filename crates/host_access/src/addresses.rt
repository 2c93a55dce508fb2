// Which register stands at an address.
ghost use Rattle.std.specs.Prelude.{◌≡◌};
ghost use Rattle.host_registers.specs.Register.{is_high, if_high, high_window, code_in, code_at, register_at, is_writable};

use host_registers::Register;
use isa::{CodeAddress, MmioAddress};

// The address of TRIGGER.
pub(crate) const TRIGGER: u32 = 0x00130c;

// Family 4 alone has entry points of nine bits, and a window on 512 bytes of code.
pub(crate) fn is_high(family: u8) -> bool
    ensures { result ≡ is_high family }
{
    family == 4
}

fn if_high(family: u8) -> Register
    ensures { result ≡ if_high family }
{
    if is_high(family) {
        Register::EntryPointHigh
    } else {
        Register::Unlisted
    }
}

fn high_window(family: u8) -> usize
    ensures { result ≡ high_window family }
{
    if is_high(family) {
        families::code_size(family)
    } else {
        0
    }
}

// The word at an offset of a window on so many bytes of code.
fn code_in(size: usize, offset: u32) -> Register
    ensures { result ≡ code_in size offset }
{
    let place = offset as usize;
    if place < size && place % 4 == 0 {
        Register::Code(CodeAddress(place))
    } else {
        Register::Unlisted
    }
}

// The code register at an address: CODE, which shows 256 bytes at most, or NEW_CODE.
#[tactic(auto, unfolding(host_registers::specs::Register::code_at))]
fn code_at(family: u8, at: u32) -> Register
    ensures { result ≡ code_at family at }
{
    match at {
        0x001400..=0x0014ff => code_in(families::code_size(family), at - 0x001400),
        0x080000..=0x0801ff => code_in(high_window(family), at - 0x080000),
        _ => Register::Unlisted,
    }
}

#[tactic(auto, unfolding(host_registers::specs::Register::register_at))]
pub(crate) fn register_at(family: u8, address: MmioAddress) -> Register
    ensures { result ≡ register_at family address }
{
    let at = address.0;
    match at {
        0x001098 => Register::Control,
        0x001304 => Register::EntryPoint,
        0x001308 => Register::Status,
        TRIGGER => Register::Trigger,
        0x001310 => Register::Flags0,
        0x001314 => Register::Flags1,
        0x001318 => if_high(family),
        0x001578 => Register::Events,
        _ => code_at(family, at),
    }
}

pub(crate) fn is_writable(register: Register) -> bool
    ensures { result ≡ is_writable register }
{
    !matches!(
        register,
        Register::Status | Register::Events | Register::Unlisted
    )
}
