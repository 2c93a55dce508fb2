// Bit patterns as floats and back, on every pattern and every float.
#![tactic(auto)]

ghost use Rattle.std.specs.Prelude.{◌≡◌};
ghost use Rattle.probe_floats.specs.Pattern.{FromPattern, ToPattern, is_finite};

// The sign's weight in a pattern.
const SIGN: u32 = 0x8000_0000;
// The positive infinity's pattern; those above it, the sign left out, are NaNs.
const INFINITY_PATTERN: u32 = 0x7f80_0000;
// The one pattern that is written for NaN.
pub const NAN_PATTERN: u32 = 0x7fc0_0000;

// The float that a pattern stands for. from_bits is not defined at a NaN's pattern, so NaN is made here.
pub fn float_of(bits: u32) -> f32
    ensures { FromPattern bits result }
{
    if bits % SIGN > INFINITY_PATTERN {
        0.0 / 0.0
    } else {
        f32::from_bits(bits)
    }
}

// The pattern of a float. to_bits is not defined at NaN, so its pattern is written here.
pub fn pattern_of(x: f32) -> u32
    ensures { ToPattern x result }
{
    // Only NaN differs from itself.
    if x != x { NAN_PATTERN } else { f32::to_bits(x) }
}

// Strictly between the infinities, where NaN is not.
pub fn is_finite(x: f32) -> bool
    ensures { result ≡ is_finite x }
{
    let infinity = f32::from_bits(INFINITY_PATTERN);
    -infinity < x && x < infinity
}
