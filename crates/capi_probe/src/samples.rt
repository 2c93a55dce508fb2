// Probe gates, with floats as bit patterns.
ghost use Rattle.std.specs.Prelude.{◌≡◌};
ghost use Rattle.capi_probe.specs.Samples.{unsampled_reply, reading_code, sampled_reply, HwsqSample};

use probe_floats::{NAN_PATTERN, float_of, pattern_of};
use probe_gates::{Calibration, Gate, Reading, Unusable, sample};

#[repr(C)]
#[derive(Clone, Copy)]
pub struct SampleReply {
    // 0, or 16
    pub refusal: u8,
    // 0, 1, or 2 for none
    pub reading: u8,
    // a pattern, and NaN's where the sample is refused
    pub volts: u32,
}

// The number of a dead gate, the last one: C hands in a number, and only this call refuses it.
const DEAD: u8 = 2;

// What a probe's raw pattern says through its gate.
#[unsafe(no_mangle)]
pub extern "C" fn hwsq_sample(
    gate: u8,
    low: u32,
    high: u32,
    gain: u32,
    offset: u32,
    raw: u32,
) -> SampleReply
    ensures { HwsqSample gate low high gain offset raw result }
{
    if DEAD < gate {
        return unsampled();
    }
    let calibration = Calibration {
        gain: float_of(gain),
        offset: float_of(offset),
    };
    let gate = Gate::of_kind(gate, float_of(low), float_of(high));
    let volts = calibration.volts(float_of(raw));
    let sampled = sample(gate, calibration, raw);
    sampled_reply(sampled, pattern_of(volts))
}

fn reading_number(reading: Reading) -> u8
    ensures { result ≡ reading_code reading }
{
    match reading {
        Reading::Zero => 0,
        Reading::One => 1,
        Reading::Missing => 2,
    }
}

// A refused sample has NaN for volts: 0 would be a voltage.
fn unsampled() -> SampleReply
    ensures { result ≡ unsampled_reply }
{
    SampleReply {
        refusal: u8::from(Unusable),
        reading: 2,
        volts: NAN_PATTERN,
    }
}

fn sampled_reply(sampled: Result<Reading, Unusable>, volts: u32) -> SampleReply
    ensures { result ≡ sampled_reply sampled volts }
{
    match sampled {
        Ok(reading) => SampleReply {
            refusal: 0,
            reading: reading_number(reading),
            volts,
        },
        Err(_) => unsampled(),
    }
}
