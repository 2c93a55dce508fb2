// The operands of a wait.
ghost use Rattle.std.specs.Prelude.{◌≡◌};
ghost use Rattle.isa.specs.Wait.{wait_fits};

// Whether a wait's one byte can hold these operands.
pub fn wait_fits(length: u8, shift: u8) -> bool
    ensures { result ≡ wait_fits length shift }
{
    length <= 3 && shift <= 15
}
