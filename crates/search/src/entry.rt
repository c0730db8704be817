// The entry.
ghost use Rattle.std.specs.Prelude.{◌≡◌};
ghost use Rattle.refusal.specs.Judge.{checks_of};
ghost use Rattle.craft_context.specs.Limits.{ContextIn};
ghost use Rattle.craft_state.specs.Start.{start_of};
ghost use Rattle.moves.specs.Modes.{plain};
ghost use Rattle.moves.specs.Moves.{moves_of};
ghost use Rattle.tree.specs.Node.{root_node};
ghost use Rattle.search.specs.Search.{early_tests, Searches};

use super::grow::grow;
use super::options::{SearchOptions, check_search};
use craft_context::CraftContext;
use craft_state::CraftState;
use moves::Mode;
use refusal::Refusal;
use tree::{Node, put_node, solution};

// What was done: iterations, records used, and draws used.
#[derive(Clone, Copy, Debug, Default, PartialEq, Eq)]
pub struct Progress {
    pub iterations: u32,
    pub records: usize,
    pub draws: usize,
}

// The path's length, its last record, and the state there.
#[derive(Clone, Copy, Debug, PartialEq, Eq)]
pub struct Found {
    pub path: usize,
    pub last: usize,
    pub state: CraftState,
}

// Refusals 1, 21, and 6 where not even record 0 has room.
fn check_first(
    logs: &[f32],
    context: CraftContext,
    options: SearchOptions,
    records: usize,
) -> Result<(), Refusal>
    ensures { result ≡ checks_of (early_tests records logs.now context options) }
{
    context.check()?;
    check_search(logs, options, context.step_max)?;
    refusal::check_room(records, 1)
}

// Record 0 has the plain moves of the start: those of a replay of no action, which leaves the single test to the loop of replay alone.
#[tactic(auto, unfolding(simulator::specs::Replay::stop_by, simulator::specs::Replay::replay_from, simulator::specs::Replay::replay_by))]
fn root_of(context: CraftContext) -> Node
    requires { ContextIn context }
    ensures { result ≡ root_node (moves_of context (start_of context) plain) }
{
    let replay = simulator::execute_actions(context, Mode::PLAIN, &[]);
    Node::root(replay.moves.0)
}

// The iterations of an accepted search, and the path that its records hold. The state at the last record is the one that a replay of the path comes to.
// A refusal comes with what was done before it, so it is no plain `?`.
pub fn search(
    nodes: &mut [Node],
    logs: &[f32],
    draws: &[u8],
    out: &mut [u8],
    context: CraftContext,
    options: SearchOptions,
) -> Result<(Progress, Found), (Refusal, Progress)>
    ensures { Searches context options logs.now draws.now nodes.old out.old result nodes.new out.new }
{
    if let Err(x) = check_first(logs, context, options, nodes.len()) {
        return Err((x, Progress::default()));
    }
    put_node(nodes, 0, root_of(context));
    let progress = grow(nodes, logs, draws, context, options)?;
    match solution(nodes, out, progress.records) {
        Ok((path, last)) => {
            let replay = simulator::execute_actions(context, Mode::PLAIN, &out[..path]);
            let state = replay.state;
            Ok((progress, Found { path, last, state }))
        }
        Err(x) => Err((x, progress)),
    }
}
