// The four entry points.
ghost use Rattle.std.specs.Prelude.{◌≡◌, ◌<◌};
ghost use Rattle.host_registers.specs.Entry.{entry_bits, entry_point};

use crate::addresses::is_high;

// The bits of ENTRY_POINT_HIGH that have a meaning.
pub(crate) fn entry_bits(word: u32) -> u32
    ensures { result ≡ entry_bits word }
{
    word % 2
        + 256 * (word / 256 % 2)
        + 65536 * (word / 65536 % 2)
        + 16777216 * (word / 16777216 % 2)
}

// Entry point 0 to 3: its byte of ENTRY_POINT, and on family 4 its bit of ENTRY_POINT_HIGH above that.
#[tactic(auto, unfolding(host_registers::specs::Entry::entry_point))]
pub(crate) fn entry_point(family: u8, low: u32, high: u32, number: u32) -> usize
    requires { number < 4 }
    ensures { result ≡ entry_point family low high number }
{
    let place = 8 * number;
    let byte = (low >> place) % 256;
    if is_high(family) {
        (byte + 256 * ((high >> place) % 2)) as usize
    } else {
        byte as usize
    }
}
