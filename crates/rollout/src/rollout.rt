// The rollout: from a state on draws name moves, until a state has a result.
ghost use Rattle.std.specs.Prelude.{◌≡◌, ◌≤◌, length, drop};
ghost use Rattle.rollout.specs.Rollout.{rolled_from};
ghost use Rattle.rollout.specs.inner.Movable.{Movable};
ghost use Rattle.rollout.specs.inner.Ends.{EndsWithin};

use super::draws::draw;
use action_set::bits::Bits;
use craft_context::CraftContext;
use craft_state::{Craft, CraftState};
use moves::Mode;
use refusal::Refusal;
use score::CraftResult;
use step::Candidate;

// The result, and the place after the last draw that was used. The first draw is of a set of the state's moves, the others of the strict moves of the
// states that follow. With nothing to draw from it has ended.
pub fn roll_out(
    context: CraftContext,
    start: CraftState,
    start_moves: Bits,
    draws: &[u8],
    first: usize,
) -> Result<(CraftResult, usize), Refusal>
    requires { Movable context start start_moves.bits × (first ≤ length draws.now) }
    ensures { (result ≡ rolled_from context start start_moves.bits first (drop first draws.now)) × EndsWithin (length draws.now) result }
{
    let mut state = start;
    let mut moves = start_moves;
    let mut at = first;
    // No `for` over the draws: it ends where no move is left, and after the last draw that is still to be asked.
    while moves.bits != 0 {
        let n = draw(moves, draws, at)?;
        let row = action::attributes_of(n);
        state = step::execute(context, state, Candidate { n, row });
        moves = moves::moves_at_once(Craft { context, state }, Mode::STRICT);
        at += 1;
    }
    Ok((score::judge(Craft { context, state }, moves.bits), at))
}
