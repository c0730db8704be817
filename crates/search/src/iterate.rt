// One iteration: select, roll out, store, and propagate back.
ghost use Rattle.std.specs.Prelude.{◌≤◌, length};
ghost use Rattle.search.specs.Iterate.{iterate_of};
ghost use Rattle.search.specs.inner.Ready.{Ready, Storing, Carried, Turns};

use super::options::SearchOptions;
use super::plan::{Plan, planned};
use super::select::{Chosen, select};
use super::store::store_path;
use action_set::bits::Bits;
use craft_context::CraftContext;
use refusal::Refusal;
use tree::{Node, node_at, touch_path};

// The count of records and the place of the next draw after an iteration.
#[derive(Clone, Copy, Debug, PartialEq, Eq)]
pub struct Turned {
    pub count: usize,
    pub at: usize,
}

// The path is stored, and the score propagated from its end.
fn carry_out(
    nodes: &mut [Node],
    links: &mut [u32],
    draws: &[u8],
    context: CraftContext,
    chosen: Chosen,
    plan: Plan,
    count: usize,
    at: usize,
)
    requires { Storing context chosen.state nodes.old count chosen.at links.old draws.now at plan.stored }
    ensures { Carried context chosen.state nodes.old count chosen.at draws.now at plan.stored plan.score nodes.new links.new }
{
    let end = store_path(
        nodes,
        links,
        draws,
        context,
        chosen.state,
        count,
        chosen.at,
        at,
        plan.stored,
    );
    touch_path(nodes, end, 0, plan.score);
}

// One that is refused leaves the records and the index as they were. What is lent and asked goes in part to each step, so a struct of it would be
// taken apart here.
pub fn iterate(
    nodes: &mut [Node],
    links: &mut [u32],
    logs: &[f32],
    draws: &[u8],
    context: CraftContext,
    options: SearchOptions,
    count: usize,
    at: usize,
) -> Result<Turned, Refusal>
    requires { Ready context options logs.now nodes.old count links.old × (at ≤ length draws.now) }
    ensures { Turns nodes.old count (iterate_of context options logs.now draws.now (record { nodes = nodes.old; count = count; at = at })) result nodes.new links.new }
{
    let chosen = select(nodes, links, logs, context, options, count);
    let n = node_at(nodes, chosen.at);
    let unused = Bits { bits: n.unused };
    let root = node_at(nodes, 0);
    let plan = planned(
        draws,
        context,
        options.score_storage_threshold,
        chosen.state,
        unused,
        root.max_score,
        count,
        nodes.len(),
        at,
    )?;
    carry_out(nodes, links, draws, context, chosen, plan, count, at);
    Ok(Turned {
        count: count + plan.stored,
        at: plan.at,
    })
}
