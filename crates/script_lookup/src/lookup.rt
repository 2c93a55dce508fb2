// The search by halves.
ghost use Rattle.std.specs.Prelude.{◌≡◌, cond, leb};
ghost use Rattle.script_lookup.specs.Promises.{Searches};

use isa::MmioAddress;

// Whether a range holds the address, and at how many ranges was looked.
#[derive(Clone, Copy)]
pub struct Lookup {
    pub listed: bool,
    pub looks: usize,
}

// 1 where the first is not above the address, and else 0. It is reckoned, as of a test the compiler makes a branch that no guess foresees.
fn reached(first: u32, address: u32) -> usize
    ensures { result ≡ cond (leb first address) 1 0 }
{
    ((4294967296 + (address as u64) - (first as u64)) / 4294967296) as usize
}

// Looks at the middle range, then at one of the half above it or below it. The looks are as many whatever they find, so that no branch depends on it.
// By hand, since firsts and lasts stand in one slice, and `Searches` counts the looks.
pub fn search(ranges: &[u32], address: MmioAddress) -> Lookup
    ensures { Searches ranges.now address.0 result }
{
    let wanted = address.0;
    let mut low = 0;
    let mut n = ranges.len() / 2;
    let mut listed = false;
    let mut looks = 0;
    while 0 < n {
        let half = n / 2;
        let middle = low + half;
        let first = ranges[2 * middle];
        let last = ranges[2 * middle + 1];
        listed |= script::holds(first, wanted, last);
        looks += 1;
        low += reached(first, wanted) * (n - half);
        n = half;
    }
    Lookup { listed, looks }
}
