// What of a row is unused: nothing of one that is used up.
ghost use Rattle.std.specs.Prelude.{◌≡◌, ◌-◌};

pub fn unused(clocks: u64, used: u64) -> u64
    ensures { result ≡ clocks - used }
{
    clocks.saturating_sub(used)
}
