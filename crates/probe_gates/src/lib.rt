// Probe gates: a raw float becomes volts by its calibration, and volts become a reading by a gate.
#![tactic(auto)]

mod calibration;
mod gate;
mod sampling;

pub use calibration::Calibration;
pub use gate::{Gate, Reading};
pub use sampling::{Unusable, sample, usable};
