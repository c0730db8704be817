// Parts 1 and 2: the step counted, and progress.
ghost use Rattle.std.specs.Prelude.{◌≡◌, ◌<◌};
ghost use Rattle.craft_state.specs.Limits.{step_most};
ghost use Rattle.step.specs.Step.{begun_of, progressed_of};
ghost use Rattle.step.specs.inner.Asked.{Progressing};

use craft_context::CraftContext;
use craft_state::{CraftState, renewed};

// QuickInnovation takes no step.
#[inline]
#[tactic(auto, unfolding(crate::specs::Step::begun_of, craft_state::specs::Start::renewed_of))]
pub fn begun(state: CraftState, n: u8) -> CraftState
    requires { state.step < step_most }
    ensures { result ≡ begun_of state n }
{
    let combo = state.previous_combo_action;
    let mut next = renewed(state, combo, state.trained_perfection_active, Some(n));
    if n != action::QUICK_INNOVATION {
        next.step += 1;
    }
    next
}

// Muscle memory is used up.
#[inline]
#[tactic(auto, unfolding(crate::specs::Step::progressed_of))]
pub fn progressed(context: CraftContext, state: CraftState, attribute: Option<u32>) -> CraftState
    requires { Progressing context state attribute }
    ensures { result ≡ progressed_of context state attribute }
{
    let Some(efficiency) = attribute else {
        return state;
    };
    let gain = action::calc_progress_increase(
        context.base_progress_factor,
        efficiency,
        state.buffs.veneration,
        state.buffs.muscle_memory,
    );
    let mut next = state;
    next.progress = state.progress + gain;
    next.buffs.muscle_memory = 0;
    next
}
