// Parts 8 and 9: the timers fall, and the action's effects, which come last.
ghost use Rattle.std.specs.Prelude.{◌≡◌};
ghost use Rattle.craft_state.specs.Inside.{DurabilityIn};
ghost use Rattle.step.specs.Parts.{mend_after, perfected_by};
ghost use Rattle.step.specs.Step.{timed_of, buffed_of, affected_of};

use super::durability::Durability;
use craft_context::CraftContext;
use craft_state::{Buffs, CraftState, Perfection, renewed};

const MASTERS_MENDS: u32 = 30;

// QuickInnovation takes no step, and inner quiet is no timer.
#[inline]
#[tactic(auto, unfolding(crate::specs::Step::timed_of, crate::specs::Parts::ticked_of))]
pub fn timed(state: CraftState, n: u8) -> CraftState
    ensures { result ≡ timed_of state n }
{
    if n == action::QUICK_INNOVATION {
        return state;
    }
    let mut next = state;
    next.buffs.waste_not = state.buffs.waste_not.saturating_sub(1);
    next.buffs.waste_not_ii = state.buffs.waste_not_ii.saturating_sub(1);
    next.buffs.manipulation = state.buffs.manipulation.saturating_sub(1);
    next.buffs.great_strides = state.buffs.great_strides.saturating_sub(1);
    next.buffs.innovation = state.buffs.innovation.saturating_sub(1);
    next.buffs.veneration = state.buffs.veneration.saturating_sub(1);
    next.buffs.muscle_memory = state.buffs.muscle_memory.saturating_sub(1);
    next
}

// What the action sets among the buffs.
#[inline]
#[tactic(auto, unfolding(crate::specs::Parts::effect_of))]
fn buffed(state: CraftState, n: u8) -> CraftState
    ensures { result ≡ buffed_of state n }
{
    let mut next = state;
    match n {
        action::WASTE_NOT => {
            next.buffs.waste_not = Buffs::WASTE_NOT_MOST;
            next.buffs.waste_not_ii = 0;
        }
        action::VENERATION => next.buffs.veneration = Buffs::VENERATION_MOST,
        action::GREAT_STRIDES => next.buffs.great_strides = Buffs::GREAT_STRIDES_MOST,
        action::INNOVATION => next.buffs.innovation = Buffs::INNOVATION_MOST,
        action::WASTE_NOT_II => {
            next.buffs.waste_not = 0;
            next.buffs.waste_not_ii = Buffs::WASTE_NOT_II_MOST;
        }
        action::MUSCLE_MEMORY => next.buffs.muscle_memory = Buffs::MUSCLE_MEMORY_MOST,
        action::MANIPULATION => next.buffs.manipulation = Buffs::MANIPULATION_MOST,
        action::QUICK_INNOVATION => next.buffs.innovation = 1,
        _ => {}
    }
    next
}

#[inline]
fn mended(durability: Durability, n: u8) -> i8
    ensures { result ≡ mend_after n durability.now durability.most }
{
    match n {
        action::MASTERS_MEND => durability.mended_by(MASTERS_MENDS),
        action::IMMACULATE_MEND => durability.most,
        _ => durability.now,
    }
}

#[inline]
fn perfected(n: u8, perfection: Perfection) -> Perfection
    ensures { result ≡ perfected_by n perfection }
{
    if n == action::TRAINED_PERFECTION {
        return Perfection::Active;
    }
    perfection
}

#[inline]
#[tactic(auto, unfolding(crate::specs::Step::affected_of, craft_state::specs::Start::renewed_of))]
pub fn affected(context: CraftContext, state: CraftState, n: u8) -> CraftState
    requires { DurabilityIn state.durability context.durability_max }
    ensures { result ≡ affected_of context state n }
{
    let combo = state.previous_combo_action;
    let perfection = perfected(n, state.trained_perfection_active);
    let durability = Durability {
        now: state.durability,
        most: context.durability_max,
    };
    let mut next = renewed(buffed(state, n), combo, perfection, state.action);
    next.durability = mended(durability, n);
    next.quick_innovation_available = state.quick_innovation_available
        & (n != action::QUICK_INNOVATION);
    next
}
