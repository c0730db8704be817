// Each action's own rule, and what strict mode asks beyond it.
ghost use Rattle.std.specs.Prelude.{◌≡◌};
ghost use Rattle.action.specs.Amount.{AtMost};
ghost use Rattle.action.specs.Limits.{wear_most};
ghost use Rattle.craft_state.specs.Inside.{DurabilityIn};
ghost use Rattle.moves.specs.Rules.{is_unused, no_waste_not, on_observe, withstands, own_rule, strict_rule};

use action::Combo;
use craft_context::CraftContext;
use craft_state::{Buffs, CraftState, Perfection};
use step::Candidate;

// Points for Observe, and for the AdvancedTouch after it.
pub const OBSERVE_AND_TOUCH: u32 = 25;

// Durability lost, from which a mend is worth its price.
pub const MASTERS_MEND_FROM: i8 = 25;

pub const IMMACULATE_MEND_ABOVE: i8 = 45;

// QuickInnovation waits for more than this part of the quality.
pub const QUICK_PART: u32 = 3;

pub fn is_unused(perfection: Perfection) -> bool
    ensures { result ≡ is_unused perfection }
{
    perfection == Perfection::Unused
}

pub fn no_waste_not(state: CraftState) -> bool
    ensures { result ≡ no_waste_not state }
{
    (state.buffs.waste_not == 0) & (state.buffs.waste_not_ii == 0)
}

pub fn on_observe(combo: Option<Combo>) -> bool
    ensures { result ≡ on_observe combo }
{
    combo == Some(Combo::Observe)
}

// Durability is enough for the cost.
pub fn can_withstand(state: CraftState, attribute: Option<u32>) -> bool
    requires { AtMost wear_most attribute }
    ensures { result ≡ withstands state attribute }
{
    let Some(cost) = attribute else {
        return true;
    };
    let off = step::wears(state, cost);
    state.durability >= off as i8
}

#[tactic(auto, unfolding(crate::specs::Rules::own_rule))]
pub fn own_rule(context: CraftContext, state: CraftState, candidate: Candidate) -> bool
    ensures { result ≡ own_rule context state candidate.n candidate.row }
{
    let combo = state.previous_combo_action;
    let perfection = state.trained_perfection_active;
    let durability = candidate.row.durability_cost;
    match candidate.n {
        action::MUSCLE_MEMORY | action::REFLECT => state.step == CraftState::STEP_LEAST,
        action::TRAINED_EYE => (state.step == CraftState::STEP_LEAST) & !context.is_expert,
        action::BYREGOTS_BLESSING => state.buffs.inner_quiet > 0,
        action::TRAINED_FINESSE => state.buffs.inner_quiet == Buffs::INNER_QUIET_MOST,
        action::TRAINED_PERFECTION => is_unused(perfection),
        action::PRUDENT_SYNTHESIS | action::PRUDENT_TOUCH => no_waste_not(state),
        action::OBSERVE => !on_observe(combo),
        action::GROUNDWORK | action::GROUNDWORK_TRAITED => can_withstand(state, durability),
        action::REFINED_TOUCH => step::on_basic_touch(combo),
        action::MANIPULATION => context.use_manipulation,
        action::QUICK_INNOVATION => {
            state.quick_innovation_available & (state.buffs.innovation == 0)
        }
        _ => true,
    }
}

#[tactic(auto, unfolding(crate::specs::Rules::strict_rule))]
pub fn strict_rule(context: CraftContext, state: CraftState, n: u8) -> bool
    requires { DurabilityIn state.durability context.durability_max }
    ensures { result ≡ strict_rule context state n }
{
    match n {
        action::BYREGOTS_BLESSING => state.buffs.inner_quiet > 1,
        action::WASTE_NOT | action::WASTE_NOT_II => no_waste_not(state),
        action::OBSERVE => state.cp >= OBSERVE_AND_TOUCH,
        action::IMMACULATE_MEND => {
            (context.durability_max - state.durability > IMMACULATE_MEND_ABOVE)
                & (state.buffs.manipulation == 0)
        }
        action::MASTERS_MEND => context.durability_max - state.durability >= MASTERS_MEND_FROM,
        action::MANIPULATION => state.buffs.manipulation == 0,
        action::GREAT_STRIDES => state.buffs.great_strides == 0,
        action::VENERATION | action::INNOVATION => {
            (state.buffs.veneration <= 1) & (state.buffs.innovation <= 1)
        }
        action::QUICK_INNOVATION => state.quality > context.quality_target / QUICK_PART,
        _ => true,
    }
}
