// One step of a slot.
ghost use Rattle.std.specs.Prelude.{◌≡◌};
ghost use Rattle.capi_machine.specs.Stepping.{slot_numbered, effect_numbers, step_reply, HwsqStep};
ghost use Rattle.event_log.specs.Log.{log_of};

use capi_state::StateImage;
use event_log::{Log, Place};
use isa::MmioAddress;
use machine_slot::Effect;
use machine_state::{SlotName, State};
use machine_step::Stepped;

// What a step did, as the numbers that C is told.
#[derive(Clone, Copy)]
pub struct EffectNumbers {
    pub refusal: u8,
    pub kind: u8,
    pub why: u8,
    pub address: u32,
    pub word: u32,
}

#[repr(C)]
#[derive(Clone, Copy)]
pub struct StepReply {
    // 0, or why there was no step
    pub refusal: u8,
    // 0 nothing, 1 stopped, 2 unknown opcode, 3 done, 4 wrote
    pub effect: u8,
    // of a stop: 1 past the code RAM, 2 never uploaded
    pub why: u8,
    // of a write
    pub address: u32,
    pub word: u32,
    // the place in the log
    pub row: usize,
    pub used: u64,
    // clocks spent in a wait, and passed by in an ewait
    pub waited: u64,
    pub searched: u64,
    pub state: StateImage,
}

// One step of slot A where slot is 0, and else of slot B.
#[unsafe(no_mangle)]
pub extern "C" fn hwsq_step<'a>(
    state: StateImage,
    slot: u8,
    clocks: &'a [u64],
    known: &'a [u32],
    values: &'a [u32],
    row: usize,
    used: u64,
) -> StepReply
    ensures { HwsqStep state slot (log_of clocks.now known.now values.now) row used result }
{
    StepReply::from(machine_step::step(
        State::from(state),
        slot_named(slot),
        Log {
            clocks,
            known,
            values,
        },
        Place { row, used },
    ))
}

fn slot_named(slot: u8) -> SlotName
    ensures { result ≡ slot_numbered slot }
{
    if slot == 0 { SlotName::A } else { SlotName::B }
}

fn numbers(refusal: u8, kind: u8, why: u8, address: MmioAddress, word: u32) -> EffectNumbers
    ensures { result ≡ record { refusal = refusal; kind = kind; why = why; address = address.0; word = word } }
{
    EffectNumbers {
        refusal,
        kind,
        why,
        address: address.0,
        word,
    }
}

impl From<Effect> for EffectNumbers {
    fn from(effect: Effect) -> EffectNumbers
        ensures { result ≡ effect_numbers effect }
    {
        let nowhere = MmioAddress(0);
        match effect {
            Effect::Refused(why) => numbers(u8::from(why), 0, 0, nowhere, 0),
            Effect::Nothing => numbers(0, 0, 0, nowhere, 0),
            Effect::Stopped(why) => numbers(0, 1, u8::from(why), nowhere, 0),
            Effect::Unknown => numbers(0, 2, 0, nowhere, 0),
            Effect::Done => numbers(0, 3, 0, nowhere, 0),
            Effect::Wrote(address, word) => numbers(0, 4, 0, address, word),
        }
    }
}

impl From<Stepped> for StepReply {
    #[tactic(auto, unfolding(crate::specs::Stepping::step_reply))]
    fn from(stepped: Stepped) -> StepReply
        ensures { result ≡ step_reply stepped }
    {
        let told = EffectNumbers::from(stepped.effect);
        StepReply {
            refusal: told.refusal,
            effect: told.kind,
            why: told.why,
            address: told.address,
            word: told.word,
            row: stepped.place.row,
            used: stepped.place.used,
            waited: stepped.waited,
            searched: stepped.searched,
            state: StateImage::from(stepped.state),
        }
    }
}
