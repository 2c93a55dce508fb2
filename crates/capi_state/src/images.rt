// The machine's state as C holds it: the same registers, with numbers for modes.
ghost use Rattle.std.specs.Prelude.{◌≡◌};
ghost use Rattle.capi_state.specs.Images.{mode_of, slot_from, slot_image, image_state, state_image};

use isa::{CodeAddress, MmioAddress};
use machine_flags::Flags;
use machine_state::{Mode, Slot, State};

#[repr(C)]
#[derive(Clone, Copy)]
pub struct SlotImage {
    // 0 idle, 1 running, 2 waiting, 3 blocked, 4 hung
    pub mode: u8,
    pub addr: u32,
    pub data: u32,
    pub ip: usize,
}

#[repr(C)]
#[derive(Clone, Copy)]
pub struct StateImage {
    pub family: u8,
    pub enable: bool,
    pub override_mode: bool,
    // bit f for flag f
    pub values: u32,
    pub enables: u32,
    pub entries: u32,
    pub entries_high: u32,
    pub a: SlotImage,
    pub b: SlotImage,
    pub code: [u8; families::MAX_CODE],
    pub marks: [u8; families::MAX_CODE],
}

// Numbers that name no mode stand for a slot that nothing moves but an abort.
fn mode_of(number: u8) -> Mode
    ensures { result ≡ mode_of number }
{
    match number {
        0 => Mode::Idle,
        1 => Mode::Running,
        2 => Mode::Waiting,
        3 => Mode::Blocked,
        _ => Mode::Hung,
    }
}

impl From<SlotImage> for Slot {
    #[tactic(auto, unfolding(crate::specs::Images::slot_from))]
    fn from(image: SlotImage) -> Slot
        ensures { result ≡ slot_from image }
    {
        Slot {
            mode: mode_of(image.mode),
            ip: CodeAddress(image.ip),
            addr: MmioAddress(image.addr),
            data: image.data,
        }
    }
}

impl From<Slot> for SlotImage {
    #[tactic(auto, unfolding(crate::specs::Images::slot_image))]
    fn from(slot: Slot) -> SlotImage
        ensures { result ≡ slot_image slot }
    {
        SlotImage {
            mode: u8::from(slot.mode),
            addr: slot.addr.0,
            data: slot.data,
            ip: slot.ip.0,
        }
    }
}

impl From<StateImage> for State {
    #[tactic(auto, unfolding(crate::specs::Images::image_state))]
    fn from(image: StateImage) -> State
        ensures { result ≡ image_state image }
    {
        let code = image.code;
        let marks = image.marks;
        State {
            family: image.family,
            code,
            marks,
            flags: Flags {
                values: image.values,
                enables: image.enables,
            },
            enable: image.enable,
            override_mode: image.override_mode,
            entries: image.entries,
            entries_high: image.entries_high,
            a: Slot::from(image.a),
            b: Slot::from(image.b),
        }
    }
}

impl From<State> for StateImage {
    #[tactic(auto, unfolding(crate::specs::Images::state_image))]
    fn from(state: State) -> StateImage
        ensures { result ≡ state_image state }
    {
        let code = state.code;
        let marks = state.marks;
        StateImage {
            family: state.family,
            enable: state.enable,
            override_mode: state.override_mode,
            values: state.flags.values,
            enables: state.flags.enables,
            entries: state.entries,
            entries_high: state.entries_high,
            a: SlotImage::from(state.a),
            b: SlotImage::from(state.b),
            code,
            marks,
        }
    }
}
