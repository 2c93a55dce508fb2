// From a raw pattern to a reading, or to refusal 16.
ghost use Rattle.std.specs.Prelude.{◌≡◌, ◌&&◌};
ghost use Rattle.probe_floats.specs.Pattern.{is_finite};
ghost use Rattle.probe_gates.specs.Refusal.{Admits, levels_fit, unusable};
ghost use Rattle.probe_gates.specs.Sampling.{Samples};

use crate::calibration::Calibration;
use crate::gate::{Gate, Reading};
use probe_floats::{float_of, is_finite};

// Why there is no sample: gate and calibration cannot be used.
#[derive(Clone, Copy, PartialEq, Eq, Debug)]
pub struct Unusable;

// The number of the refusal.
impl From<Unusable> for u8 {
    fn from(_: Unusable) -> u8
        ensures { result ≡ unusable }
    {
        16
    }
}

// Whether refusal 16 lets the gate with its calibration pass.
pub fn usable(gate: Gate, calibration: Calibration) -> bool
    ensures { Admits gate calibration result }
{
    if !both_finite(calibration.gain, calibration.offset) {
        return false;
    }
    match gate {
        Gate::Normal { low, high } | Gate::Inverted { low, high } => levels_fit(low, high),
        Gate::Dead => true,
    }
}

// What a probe's raw pattern says through its gate.
pub fn sample(gate: Gate, calibration: Calibration, raw: u32) -> Result<Reading, Unusable>
    ensures { Samples gate calibration raw result }
{
    if !usable(gate, calibration) {
        return Err(Unusable);
    }
    let volts = calibration.volts(float_of(raw));
    Ok(gate.read(volts))
}

fn levels_fit(low: f32, high: f32) -> bool
    ensures { result ≡ levels_fit low high }
{
    both_finite(low, high) && low < high
}

fn both_finite(x: f32, y: f32) -> bool
    ensures { result ≡ (is_finite x && is_finite y) }
{
    is_finite(x) && is_finite(y)
}
