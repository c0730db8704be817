// Part 3: quality and inner quiet.
ghost use Rattle.std.specs.Prelude.{◌≡◌, ◌≤◌};
ghost use Rattle.action.specs.Amount.{AtMost};
ghost use Rattle.action.specs.Limits.{quality_most, quiet_most, gain_most};
ghost use Rattle.step.specs.Parts.{on_basic_touch, doubles_quiet, quiet_to, quality_gain};
ghost use Rattle.step.specs.Step.{improved_of};
ghost use Rattle.step.specs.inner.Asked.{Touching};

use action::Combo;
use craft_context::CraftContext;
use craft_state::{Buffs, CraftState};

// The player's level from which inner quiet moves.
const QUIET_LEVEL: u32 = 11;

#[inline]
fn gain(context: CraftContext, state: CraftState, n: u8, efficiency: u32) -> u32
    requires { Touching context state × (efficiency ≤ quality_most) }
    ensures { (result ≡ quality_gain context state n efficiency) × (result ≤ gain_most) }
{
    action::calc_quality_increase(
        n,
        context.quality_target.saturating_sub(state.quality),
        context.base_quality_factor,
        efficiency,
        state.buffs.inner_quiet,
        state.buffs.innovation,
        state.buffs.great_strides,
    )
}

#[inline]
pub fn on_basic_touch(combo: Option<Combo>) -> bool
    ensures { result ≡ on_basic_touch combo }
{
    combo == Some(Combo::BasicTouch)
}

// These raise inner quiet by 2.
#[inline]
fn doubles(n: u8, combo: Option<Combo>) -> bool
    ensures { result ≡ doubles_quiet n combo }
{
    (n == action::REFLECT)
        | (n == action::PREPARATORY_TOUCH)
        | ((n == action::REFINED_TOUCH) & on_basic_touch(combo))
}

#[inline]
fn next_quiet(level: u32, quiet: u8, n: u8, combo: Option<Combo>) -> u8
    requires { quiet ≤ quiet_most }
    ensures { result ≡ quiet_to level quiet n combo }
{
    if level < QUIET_LEVEL {
        return quiet;
    }
    if n == action::BYREGOTS_BLESSING {
        return 0;
    }
    let by = if doubles(n, combo) { 2 } else { 1 };
    (quiet + by).min(Buffs::INNER_QUIET_MOST)
}

// Great strides is used up.
#[inline]
#[tactic(auto, unfolding(crate::specs::Step::improved_of))]
pub fn improved(
    context: CraftContext,
    state: CraftState,
    n: u8,
    attribute: Option<u32>,
) -> CraftState
    requires { Touching context state × AtMost quality_most attribute }
    ensures { result ≡ improved_of context state n attribute }
{
    let Some(efficiency) = attribute else {
        return state;
    };
    let combo = state.previous_combo_action;
    let quiet = next_quiet(context.player_job_level, state.buffs.inner_quiet, n, combo);
    let mut next = state;
    next.quality = state.quality + gain(context, state, n, efficiency);
    next.buffs.inner_quiet = quiet;
    next.buffs.great_strides = 0;
    next
}
