// The rules of strict mode, in the order of the source.
ghost use Rattle.std.specs.Prelude.{◌≡◌};
ghost use Rattle.step.specs.inner.Asked.{Progressing};
ghost use Rattle.moves.specs.Rules.{eye_alone, outside_memory, outside_veneration, after_observe, may_progress};
ghost use Rattle.moves.specs.Moves.{strictly_of};

use super::own::{on_observe, own_rule, strict_rule};
use action_set::bits;
use craft_context::CraftContext;
use craft_state::{Craft, CraftState};
use step::Candidate;

// A finish asks for this part of the quality.
pub const QUALITY_PART: u32 = 5;

// At the first step of such a craft TrainedEye is the only move.
pub fn is_eye_alone(context: CraftContext, state: CraftState) -> bool
    ensures { result ≡ eye_alone context state }
{
    (state.step == CraftState::STEP_LEAST)
        & (context.quality_target > 0)
        & !context.is_expert
        & bits::holds(context.action_pool.0, action::TRAINED_EYE)
}

// No quality action under muscle memory where player and recipe are of one level.
fn is_outside_memory(context: CraftContext, state: CraftState, quality: Option<u32>) -> bool
    ensures { result ≡ outside_memory context state quality }
{
    let Some(_) = quality else {
        return true;
    };
    !((context.recipe_job_level == context.player_job_level) & (state.buffs.muscle_memory > 0))
}

// No pure quality action under veneration.
fn is_outside_veneration(state: CraftState, progress: Option<u32>, quality: Option<u32>) -> bool
    ensures { result ≡ outside_veneration state progress quality }
{
    let None = progress else {
        return true;
    };
    let Some(_) = quality else {
        return true;
    };
    state.buffs.veneration == 0
}

// After Observe only AdvancedTouch.
fn may_follow(state: CraftState, n: u8) -> bool
    ensures { result ≡ after_observe state n }
{
    let combo = state.previous_combo_action;
    !on_observe(combo) | (n == action::ADVANCED_TOUCH)
}

// No finish while quality is below a part of its target, and no pure progress under innovation that does not finish.
fn may_progress(
    context: CraftContext,
    state: CraftState,
    progress: Option<u32>,
    quality: Option<u32>,
) -> bool
    requires { Progressing context state progress }
    ensures { result ≡ may_progress context state progress quality }
{
    let Some(efficiency) = progress else {
        return true;
    };
    let gain = action::calc_progress_increase(
        context.base_progress_factor,
        efficiency,
        state.buffs.veneration,
        state.buffs.muscle_memory,
    );
    if state.progress + gain >= context.progress_target {
        return state.quality >= context.quality_target / QUALITY_PART;
    }
    let None = quality else {
        return true;
    };
    state.buffs.innovation == 0
}

#[tactic(auto, unfolding(crate::specs::Moves::strictly_of))]
pub fn strictly(craft: Craft, candidate: Candidate) -> bool
    ensures { result ≡ strictly_of craft.context craft.state candidate.n candidate.row }
{
    let Candidate { n, row } = candidate;
    if is_eye_alone(craft.context, craft.state) {
        return n == action::TRAINED_EYE;
    }
    let progress = row.progress_efficiency;
    let quality = row.quality_efficiency;
    is_outside_memory(craft.context, craft.state, quality)
        & is_outside_veneration(craft.state, progress, quality)
        & may_follow(craft.state, n)
        & may_progress(craft.context, craft.state, progress, quality)
        & own_rule(craft.context, craft.state, candidate)
        & strict_rule(craft.context, craft.state, n)
}
