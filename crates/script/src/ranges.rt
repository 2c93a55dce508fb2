// The allowed ranges: firsts and lasts, one after the other.
ghost use Rattle.std.specs.Prelude.{◌≡◌};
ghost use Rattle.families.specs.Family.{within};
ghost use Rattle.script.specs.Input.{listed_in, ranges_paired, ranges_fit};

use isa::MmioAddress;

// The most ranges of a script.
pub const MAX_RANGES: usize = 64;

// Whether a range holds the address. A first without its last holds nothing.
pub fn listed(ranges: &[u32], address: MmioAddress) -> bool
    ensures { result ≡ listed_in ranges.now address.0 }
{
    ranges
        .chunks_exact(2)
        .any(|range| holds(range[0], address.0, range[1]))
}

// Whether the range from first to last holds the address.
pub fn holds(first: u32, address: u32, last: u32) -> bool
    ensures { result ≡ within first address last }
{
    first <= address && address <= last
}

// Whether each first has its last and is not above it. The loop has no early exit, so that the compiler takes many at a time.
#[tactic(auto, using(crate::proofs::RangeLaws::paired_odd, crate::proofs::RangeLaws::paired_few))]
fn ranges_paired(ranges: &[u32]) -> bool
    ensures { result ≡ ranges_paired ranges.now }
{
    if ranges.len() % 2 == 1 {
        return false;
    }
    let mut crossed = false;
    for range in ranges.chunks_exact(2) {
        crossed |= range[1] < range[0];
    }
    !crossed
}

// Whether there are at most 64 ranges, each with a first and a last in order.
#[tactic(auto, unfolding(crate::specs::Input::ranges_fit))]
pub fn ranges_fit(ranges: &[u32]) -> bool
    ensures { result ≡ ranges_fit ranges.now }
{
    ranges.len() <= 2 * MAX_RANGES && ranges_paired(ranges)
}
