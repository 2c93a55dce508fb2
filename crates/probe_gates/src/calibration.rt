// From a probe's raw float to volts.
ghost use Rattle.probe_gates.specs.Voltage.{Calibrates};

// Raw by gain plus offset is volts.
#[derive(Clone, Copy)]
pub struct Calibration {
    pub gain: f32,
    pub offset: f32,
}

impl Calibration {
    // Infinite or NaN where the product or the sum is.
    pub fn volts(self, raw: f32) -> f32
        ensures { Calibrates self raw result }
    {
        // The product is a float of its own, so each operation rounds by itself.
        let scaled = raw * self.gain;
        scaled + self.offset
    }
}
