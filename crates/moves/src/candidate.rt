// The test of one candidate: price and quality in either mode, then the rules of the mode.
ghost use Rattle.std.specs.Prelude.{◌≡◌, ◌<◌};
ghost use Rattle.action.specs.Known.{actions};
ghost use Rattle.moves.specs.Rules.{may_improve};
ghost use Rattle.moves.specs.Moves.{allowed_of, allows_of};

use super::mode::Mode;
use super::own::own_rule;
use super::strict::strictly;
use craft_context::CraftContext;
use craft_state::{Craft, CraftState};
use step::Candidate;

// No quality action once quality is at its target.
fn may_improve(context: CraftContext, state: CraftState, attribute: Option<u32>) -> bool
    ensures { result ≡ may_improve context state attribute }
{
    let Some(_) = attribute else {
        return true;
    };
    state.quality < context.quality_target
}

// One candidate by its row. The price is the full one: its combo does not count, as in the Rust.
#[tactic(auto, unfolding(crate::specs::Moves::allowed_of))]
pub fn allowed(craft: Craft, mode: Mode, candidate: Candidate) -> bool
    ensures { result ≡ allowed_of craft.context craft.state mode candidate.n candidate.row }
{
    let cost = candidate.row.cp_cost;
    let quality = candidate.row.quality_efficiency;
    if !(action::can_pay(craft.state.cp, cost) & may_improve(craft.context, craft.state, quality)) {
        return false;
    }
    if mode.strict {
        strictly(craft, candidate)
    } else {
        own_rule(craft.context, craft.state, candidate)
    }
}

// By its row of the table.
#[tactic(auto, using(action::specs::laws::Bounds::rows_bounded))]
pub fn allows(craft: Craft, mode: Mode, n: u8) -> bool
    requires { n < actions }
    ensures { result ≡ allows_of craft.context craft.state mode n }
{
    let row = action::attributes_of(n);
    allowed(craft, mode, Candidate { n, row })
}
