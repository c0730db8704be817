// Replay in a mode: action after action, each tested where it stands.
ghost use Rattle.std.specs.Prelude.{◌≡◌, true, cond, ◌≤◌, length};
ghost use Rattle.action.specs.Known.{known_front};
ghost use Rattle.craft_context.specs.Limits.{ContextIn};
ghost use Rattle.step.specs.inner.Asked.{Playable};
ghost use Rattle.step.specs.Step.{executed_of};
ghost use Rattle.score.specs.Result.{ScoreIsNumber};
ghost use Rattle.simulator.specs.Replay.{replay_of};
ghost use Rattle.simulator.specs.inner.Settled.{settled_of};

use action_set::ActionSet;
use craft_context::CraftContext;
use craft_state::{Craft, CraftState, fresh};
use moves::Mode;
use score::CraftResult;
use step::Candidate;

// The state where a replay stopped, its moves, its result, and how many actions were executed.
#[derive(Clone, Copy, Debug, PartialEq)]
pub struct Replay {
    pub state: CraftState,
    pub moves: ActionSet,
    pub result: CraftResult,
    pub executed: usize,
}

// The state after an action that passed the test. What did not pass would leave it as it was, and the flag is there for the edit that lets one not pass.
fn play(craft: Craft, candidate: Candidate, legal: bool) -> CraftState
    requires { legal ≡ true → Playable craft.context craft.state candidate.n candidate.row }
    ensures { result ≡ cond legal (executed_of craft.context craft.state candidate.n candidate.row) craft.state }
{
    if legal {
        return step::execute(craft.context, craft.state, candidate);
    }
    craft.state
}

// What the loop was broken with, once the moves are known: a craft that goes on with none left is a failure.
fn settled(res: CraftResult, moves: u32) -> CraftResult
    requires { ScoreIsNumber res }
    ensures { (result ≡ settled_of res moves) × ScoreIsNumber result }
{
    match res {
        CraftResult::Continuing if moves == 0 => CraftResult::InvalidActionFailure,
        _ => res,
    }
}

// One loop, broken with its result where it stops, the form that document 01 asks for, and so no `for`; the moves are worked out there alone.
pub fn execute_actions(context: CraftContext, mode: Mode, list: &[u8]) -> Replay
    requires { ContextIn context × (length list.now ≤ known_front list.now) }
    ensures { (result ≡ replay_of context mode list.now) × ScoreIsNumber result.result }
{
    let mut state = fresh(context);
    let mut i = 0;
    let result = 'turns: loop {
        let craft = Craft { context, state };
        if moves::has_ended(context, state) {
            break score::judge(craft, 0);
        }
        if i >= list.len() {
            break CraftResult::Continuing;
        }
        let n = list[i];
        let row = action::attributes_of(n);
        let candidate = Candidate { n, row };
        let legal = moves::passes(craft, mode, candidate);
        if !legal {
            break CraftResult::InvalidActionFailure;
        }
        state = play(craft, candidate, legal);
        i += 1;
    };
    let moves = moves::moves_at_once(Craft { context, state }, mode);
    Replay {
        state,
        moves: ActionSet(moves.bits),
        result: settled(result, moves.bits),
        executed: i,
    }
}
