// Whether memory is paused.
ghost use Rattle.std.specs.Prelude.{◌≡◌};
ghost use Rattle.machine_flags.specs.Flags.{paused_of};
ghost use Rattle.capi_state.specs.Images.{image_state};

use capi_state::StateImage;
use machine_flags::Flags;

#[tactic(auto, unfolding(capi_state::specs::Images::image_state))]
#[unsafe(no_mangle)]
pub extern "C" fn hwsq_paused(state: StateImage) -> bool
    ensures { result ≡ paused_of (image_state state).family (image_state state).flags }
{
    machine_flags::memory_paused(
        state.family,
        Flags {
            values: state.values,
            enables: state.enables,
        },
    )
}
