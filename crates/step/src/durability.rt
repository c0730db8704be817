// Parts 4 and 5: durability, what wears it off and what gives it back.
ghost use Rattle.std.specs.Prelude.{◌≡◌, ◌≤◌, pos, ◌-ℤ◌};
ghost use Rattle.action.specs.Amount.{AtMost};
ghost use Rattle.action.specs.Limits.{wear_most};
ghost use Rattle.craft_state.specs.Inside.{DurabilityIn};
ghost use Rattle.step.specs.Durability.{mended_of, masters_mends, refreshed_to};
ghost use Rattle.step.specs.Parts.{spent, wear};
ghost use Rattle.step.specs.Step.{worn_of, refreshed_of};

use craft_context::CraftContext;
use craft_state::{CraftState, Perfection, renewed};

const MANIPULATION_MENDS: u32 = 5;

// A base cost above 0 spends an active trained perfection.
#[inline]
fn spend(perfection: Perfection, cost: u32) -> Perfection
    ensures { result ≡ spent perfection cost }
{
    match perfection {
        Perfection::Active if cost > 0 => Perfection::Spent,
        kept => kept,
    }
}

// What a cost comes to in this state.
#[inline]
pub fn wears(state: CraftState, cost: u32) -> u32
    requires { cost ≤ wear_most }
    ensures { (result ≡ wear state cost) × (result ≤ wear_most) }
{
    action::calc_durability_cost(
        cost,
        state.trained_perfection_active == Perfection::Active,
        state.buffs.waste_not,
        state.buffs.waste_not_ii,
    )
}

// A durability from -19 to its most, which is from 1 to 97.
#[derive(Clone, Copy)]
pub struct Durability {
    pub now: i8,
    pub most: i8,
    ghost inside: { DurabilityIn now most },
}

impl Durability {
    #[inline]
    fn worn_by(self, cost: u32) -> i8
        requires { cost ≤ wear_most }
        ensures { result ≡ self.now -ℤ pos cost }
    {
        self.now - cost as i8
    }

    // Given back, up to the most.
    #[inline]
    pub fn mended_by(self, by: u32) -> i8
        requires { by ≤ masters_mends }
        ensures { result ≡ mended_of self.now by self.most }
    {
        (self.now + by as i8).min(self.most)
    }

    #[inline]
    fn refreshed_by(self, manipulation: u8) -> i8
        ensures { result ≡ refreshed_to self.now manipulation self.most }
    {
        if (manipulation > 0) & (self.now > 0) {
            return self.mended_by(MANIPULATION_MENDS);
        }
        self.now
    }
}

#[inline]
#[tactic(auto, unfolding(crate::specs::Step::worn_of, craft_state::specs::Start::renewed_of))]
pub fn worn(context: CraftContext, state: CraftState, attribute: Option<u32>) -> CraftState
    requires { DurabilityIn state.durability context.durability_max × AtMost wear_most attribute }
    ensures { result ≡ worn_of state attribute }
{
    let Some(cost) = attribute else {
        return state;
    };
    let perfection = spend(state.trained_perfection_active, cost);
    let durability = Durability {
        now: state.durability,
        most: context.durability_max,
    };
    let mut next = renewed(state, state.previous_combo_action, perfection, state.action);
    next.durability = durability.worn_by(wears(state, cost));
    next
}

// What manipulation gives back.
#[inline]
#[tactic(auto, unfolding(crate::specs::Step::refreshed_of))]
pub fn refreshed(context: CraftContext, state: CraftState) -> CraftState
    requires { DurabilityIn state.durability context.durability_max }
    ensures { result ≡ refreshed_of context state }
{
    let durability = Durability {
        now: state.durability,
        most: context.durability_max,
    };
    let mut next = state;
    next.durability = durability.refreshed_by(state.buffs.manipulation);
    next
}
