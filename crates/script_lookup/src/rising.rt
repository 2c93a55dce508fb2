// Which ranges rise.
ghost use Rattle.std.specs.Prelude.{◌≡◌};
ghost use Rattle.script_lookup.specs.Rising.{Rises};

// Whether each range lies above the one before it: the first of each, but for the very first, above the last before it. The loop has no early exit, so that
// the compiler takes many at a time.
pub fn ranges_rise(ranges: &[u32]) -> bool
    ensures { Rises ranges.now result }
{
    let Some((_, rest)) = ranges.split_first() else {
        return true;
    };
    let mut met = false;
    for meeting in rest.chunks_exact(2) {
        met |= meeting[1] <= meeting[0];
    }
    !met
}
