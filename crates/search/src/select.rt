// `select`: from record 0 on to the child of greatest ucb1, while a record has no unused moves and has children.
ghost use Rattle.std.specs.Prelude.{◌≡◌, ◌+◌, ◌*◌, not, length, ◌==◌};
ghost use Rattle.action.specs.Table.{attributes_of};
ghost use Rattle.step.specs.Step.{execute_of};
ghost use Rattle.step.specs.inner.Asked.{Playable};
ghost use Rattle.rates.specs.inner.Holds.{Kept, Holds, Asks};
ghost use Rattle.tree.specs.Tree.{node_at};
ghost use Rattle.tree.specs.inner.Best.{child_at};
ghost use Rattle.search.specs.Select.{next_of};
ghost use Rattle.search.specs.inner.Links.{linked, top_of};
ghost use Rattle.search.specs.inner.Newest.{better_node, best_down, Late, Linked};
ghost use Rattle.search.specs.inner.Ready.{Ready, Rating, chosen_of};

use super::links::{last_child, older, top_of};
use super::options::{SearchOptions, ln_at};
use craft_context::CraftContext;
use craft_state::{CraftState, fresh};
use rates::{Best, Weights};
use step::Candidate;
use tree::{Node, is_child, node_at};

// A record, and the state there.
#[derive(Clone, Copy, Debug, PartialEq, Eq)]
pub struct Chosen {
    pub at: usize,
    pub state: CraftState,
}

fn has_unused(n: Node) -> bool
    ensures { result ≡ not (n.unused == 0) }
{
    n.unused != 0
}

// Child k is the best, if none is so far or it is better.
fn better_node(best: Option<Best>, k: usize, n: Node, weights: Weights) -> Best
    requires { Asks best n.visits n.score_sum n.max_score weights }
    ensures { (result ≡ better_node best k n weights) × Kept weights result }
{
    rates::better(best, k, n.visits, n.score_sum, n.max_score, weights)
}

// The children past the index, the newest first.
fn best_late(nodes: &[Node], count: usize, parent: usize, weights: Weights) -> Option<Best>
    requires { Late nodes.now count parent weights }
    ensures { (best_down weights nodes.now parent (top_of count) result ≡ best_down weights nodes.now parent count None) × Holds weights result }
{
    let mut best = None;
    for k in (top_of(count)..count).rev() {
        let n = node_at(nodes, k);
        if is_child(k, n, parent) {
            best = Some(better_node(best, k, n, weights));
        }
    }
    best
}

// And those by the index, from the last on.
fn best_linked(
    nodes: &[Node],
    links: &[u32],
    last: usize,
    weights: Weights,
    late: Option<Best>,
) -> Option<Best>
    requires { Linked nodes.now links.now last weights late × (length links.now ≡ 2 * linked) }
    ensures { result ≡ best_down weights nodes.now (node_at nodes.now last).parent (last + 1) late }
{
    let mut best = late;
    let mut k = last;
    // The steps are the index's own, so no range goes over them.
    while k != 0 {
        best = Some(better_node(best, k, node_at(nodes, k), weights));
        k = older(links, k);
    }
    best
}

// None where the way down ends.
fn next_child(
    nodes: &[Node],
    links: &[u32],
    logs: &[f32],
    options: SearchOptions,
    count: usize,
    k: usize,
) -> Option<usize>
    requires { Rating options logs.now nodes.now count links.now k }
    ensures { result ≡ child_at (next_of options logs.now nodes.now count k) }
{
    let n = node_at(nodes, k);
    if has_unused(n) {
        return None;
    }
    let weights = Weights {
        w: options.max_score_weighting_constant,
        c: options.exploration_constant,
        ln: ln_at(logs, n.visits),
    };
    let late = best_late(nodes, count, k, weights);
    let best = best_linked(nodes, links, last_child(links, k), weights, late);
    Some(best?.at)
}

// The state after a legal action.
#[tactic(auto, using(action::specs::laws::Bounds::rows_bounded))]
pub fn stepped(context: CraftContext, state: CraftState, n: u8) -> CraftState
    requires { Playable context state n (attributes_of n) }
    ensures { result ≡ execute_of context state n }
{
    let row = action::attributes_of(n);
    step::execute(context, state, Candidate { n, row })
}

// The state is carried along, so that none is stored.
pub fn select(
    nodes: &[Node],
    links: &[u32],
    logs: &[f32],
    context: CraftContext,
    options: SearchOptions,
    count: usize,
) -> Chosen
    requires { Ready context options logs.now nodes.now count links.now }
    ensures { result ≡ chosen_of context options logs.now nodes.now count }
{
    let mut at = 0;
    let mut state = fresh(context);
    // The steps are the records' own.
    while let Some(child) = next_child(nodes, links, logs, options, count, at) {
        let n = node_at(nodes, child);
        state = stepped(context, state, n.action);
        at = child;
    }
    Chosen { at, state }
}
