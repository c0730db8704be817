// Refusal 2: a state field is outside its range.
ghost use Rattle.std.specs.Prelude.{◌≡◌};
ghost use Rattle.craft_state.specs.Limits.{combo_agrees, last_known, state_inside, ChecksState};

use super::state::CraftState;
use action::Combo;
use craft_context::CraftContext;
use refusal::Refusal;

// A combo is the last action's.
fn agrees(combo: Option<Combo>, last: Option<u8>) -> bool
    ensures { result ≡ combo_agrees combo last }
{
    match combo {
        None => true,
        Some(Combo::BasicTouch) => last == Some(action::BASIC_TOUCH),
        Some(Combo::StandardTouch) => last == Some(action::STANDARD_TOUCH),
        Some(Combo::RefinedTouch) => last == Some(action::REFINED_TOUCH),
        Some(Combo::Observe) => last == Some(action::OBSERVE),
    }
}

fn is_known(last: Option<u8>) -> bool
    ensures { result ≡ last_known last }
{
    last.is_none_or(|n| n < action::ACTIONS)
}

fn is_inside(context: CraftContext, state: CraftState) -> bool
    ensures { result ≡ state_inside context state }
{
    (state.step >= CraftState::STEP_LEAST)
        & (state.progress <= CraftState::AMOUNT_MOST)
        & (state.quality <= CraftState::AMOUNT_MOST)
        & (state.durability >= CraftState::DURABILITY_LEAST)
        & (state.durability <= context.durability_max)
        & (state.cp <= context.cp_max)
        & agrees(state.previous_combo_action, state.action)
        & state.buffs.are_inside()
        & is_known(state.action)
}

impl CraftState {
    // Refusal 1 of the context, then refusal 2.
    pub fn check(self, context: CraftContext) -> Result<(), Refusal>
        ensures { ChecksState context self result }
    {
        context.check()?;
        if is_inside(context, self) {
            return Ok(());
        }
        Err(Refusal::StateOutOfRange)
    }
}
