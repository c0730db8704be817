// Parts 6 and 7: points paid, and the combo that the action opens.
ghost use Rattle.std.specs.Prelude.{◌≡◌};
ghost use Rattle.step.specs.Parts.{combo_after};
ghost use Rattle.step.specs.Step.{paid_of, combined_of};
ghost use Rattle.step.specs.inner.Asked.{Payable};

use super::quality::on_basic_touch;
use action::Combo;
use craft_state::{CraftState, renewed};

#[inline]
#[tactic(auto, unfolding(crate::specs::Step::paid_of))]
pub fn paid(state: CraftState, n: u8, attribute: Option<u32>) -> CraftState
    requires { Payable state.cp state.previous_combo_action n attribute }
    ensures { result ≡ paid_of state n attribute }
{
    let Some(cost) = attribute else {
        return state;
    };
    let price = action::calc_cp_cost(n, state.previous_combo_action, cost);
    let mut next = state;
    next.cp = state.cp - price;
    next
}

#[inline]
fn next_combo(combo: Option<Combo>, n: u8) -> Option<Combo>
    ensures { result ≡ combo_after combo n }
{
    match n {
        action::BASIC_TOUCH => Some(Combo::BasicTouch),
        action::OBSERVE => Some(Combo::Observe),
        action::STANDARD_TOUCH if on_basic_touch(combo) => Some(Combo::StandardTouch),
        action::REFINED_TOUCH if on_basic_touch(combo) => Some(Combo::RefinedTouch),
        _ => None,
    }
}

#[inline]
#[tactic(auto, unfolding(crate::specs::Step::combined_of, craft_state::specs::Start::renewed_of))]
pub fn combined(state: CraftState, n: u8) -> CraftState
    ensures { result ≡ combined_of state n }
{
    let combo = next_combo(state.previous_combo_action, n);
    renewed(state, combo, state.trained_perfection_active, state.action)
}
