// The clocks of a wait.
ghost use Rattle.std.specs.Prelude.{◌≡◌};
ghost use Rattle.isa.specs.Wait.{wait_clocks};

use isa::wait_fits;

// How many clocks a wait takes. Operands that no wait can have take none.
pub fn wait_clocks(length: u8, shift: u8) -> u64
    ensures { result ≡ wait_clocks length shift }
{
    if wait_fits(length, shift) {
        ((length as u64) << (2 * shift)) * 32
    } else {
        0
    }
}
