// The entries over the states of a craft. Where a craft starts is `CraftState::new`.
ghost use Rattle.crafty.specs.States.{HasMoves, Steps, HasResult, HasScore, HasLine};

use super::room::write;
use action_set::ActionSet;
use craft_context::CraftContext;
use craft_state::{Craft, CraftState};
use moves::Mode;
use refusal::Refusal;
use score::CraftResult;
use step::Candidate;

pub fn moves(context: CraftContext, state: CraftState, mode: Mode) -> Result<ActionSet, Refusal>
    ensures { HasMoves context state mode result }
{
    state.check(context)?;
    let craft = Craft { context, state };
    Ok(ActionSet(moves::legal_moves(craft, mode).bits))
}

// One action, if it is among the state's moves in the mode.
pub fn step(
    context: CraftContext,
    state: CraftState,
    mode: Mode,
    n: u8,
) -> Result<CraftState, Refusal>
    ensures { Steps context state mode n result }
{
    state.check(context)?;
    action::check_action(n)?;
    let craft = Craft { context, state };
    let row = action::attributes_of(n);
    let candidate = Candidate { n, row };
    if moves::is_legal(craft, mode, candidate) {
        return Ok(step::execute(context, state, candidate));
    }
    Err(Refusal::IllegalAction)
}

pub fn result(context: CraftContext, state: CraftState, mode: Mode) -> Result<CraftResult, Refusal>
    ensures { HasResult context state mode result }
{
    state.check(context)?;
    let craft = Craft { context, state };
    Ok(score::check_result(craft, mode))
}

// A state's score, finished or not.
pub fn score(context: CraftContext, state: CraftState) -> Result<f32, Refusal>
    ensures { HasScore context state result }
{
    state.check(context)?;
    let craft = Craft { context, state };
    Ok(score::score(craft))
}

// The line of a state: rendered into a room of its own, which is always enough, and then written.
pub fn display(context: CraftContext, state: CraftState, out: &mut [u8]) -> Result<usize, Refusal>
    ensures { HasLine context state out.old result out.new }
{
    state.check(context)?;
    let mut room = [0u8; craft_state::LINE_MOST];
    let k = craft_state::put_line(context, state, &mut room, 0);
    write(&room[..k], out)
}
