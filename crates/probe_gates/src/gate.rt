// From volts to a reading.
ghost use Rattle.std.specs.Prelude.{◌≡◌};
ghost use Rattle.probe_gates.specs.Kind.{gate_of};
ghost use Rattle.probe_gates.specs.Reading.{GateReads, IsBetween, at_levels};

use probe_floats::is_finite;

// Levels are in volts.
#[derive(Clone, Copy)]
pub enum Gate {
    Normal { low: f32, high: f32 },
    Inverted { low: f32, high: f32 },
    Dead,
}

// What a probe says of its event. Missing is no reading, and not 0; of an Option<bool> a None and a Some(false) are easily taken for one another.
#[derive(Clone, Copy, PartialEq, Eq, Debug)]
pub enum Reading {
    Zero,
    One,
    Missing,
}

impl Gate {
    // 0 is normal and 1 inverted; any other number is a dead gate, whose levels are not looked at.
    pub fn of_kind(kind: u8, low: f32, high: f32) -> Gate
        ensures { result ≡ gate_of kind low high }
    {
        match kind {
            0 => Gate::Normal { low, high },
            1 => Gate::Inverted { low, high },
            _ => Gate::Dead,
        }
    }

    // A dead gate, and volts that are NaN or infinite, are no reading.
    pub fn read(self, volts: f32) -> Reading
        ensures { GateReads self volts result }
    {
        if !is_finite(volts) {
            return Reading::Missing;
        }
        match self {
            Gate::Normal { low, high } => {
                at_levels(low, high, volts, Reading::Zero, Reading::One)
            }
            Gate::Inverted { low, high } => {
                at_levels(low, high, volts, Reading::One, Reading::Zero)
            }
            Gate::Dead => Reading::Missing,
        }
    }

    // Whether volts are strictly between the levels, which a dead gate does not have.
    pub fn between(self, volts: f32) -> bool
        ensures { IsBetween self volts result }
    {
        match self {
            Gate::Normal { low, high } | Gate::Inverted { low, high } => {
                low < volts && volts < high
            }
            Gate::Dead => false,
        }
    }
}

// At or below low, at or above high, or between.
fn at_levels(low: f32, high: f32, volts: f32, below: Reading, above: Reading) -> Reading
    ensures { result ≡ at_levels low high volts below above }
{
    if volts <= low {
        below
    } else if high <= volts {
        above
    } else {
        Reading::Missing
    }
}
