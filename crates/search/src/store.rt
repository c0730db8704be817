// What an iteration stores: a path of records below the selected one, each of which loses the action of the next.
ghost use Rattle.std.specs.Prelude.{◌≡◌, ◌*◌, ◌<◌, length, slice_index};
ghost use Rattle.action.specs.Known.{actions};
ghost use Rattle.action_set.specs.Sets.{SetIn, size_of, nth_of};
ghost use Rattle.tree.specs.Tree.{node_at};
ghost use Rattle.search.specs.Iterate.{drawn_from, below_of};
ghost use Rattle.search.specs.inner.Links.{linked, link_of};
ghost use Rattle.search.specs.inner.Ready.{Storing, Stores};

use super::links::link;
use super::select::stepped;
use action_set::bits::Bits;
use craft_context::CraftContext;
use craft_state::{Craft, CraftState};
use moves::Mode;
use tree::{Node, node_at, put_node};

// A record's moves are a plain number, as C reads it: what is known of it is asked for.
fn without(n: Node, action: u8) -> Node
    requires { SetIn n.unused × (action < actions) }
    ensures { result ≡ drawn_from n action }
{
    let unused = Bits { bits: n.unused };
    Node {
        unused: unused.remove(action).bits,
        ..n
    }
}

// The member that the draw at a place names.
#[tactic(auto, using(action_set::specs::laws::Nth::nth_named))]
fn sampled(draws: &[u8], at: usize, unused: Bits) -> u8
    requires { (at < length draws.now) × (slice_index draws.now at < size_of unused.bits) }
    ensures { (result ≡ nth_of unused.bits (slice_index draws.now at)) × (result < actions) }
{
    unused.nth(draws[at])
}

// One record below record k, which loses the action.
fn insert_below(
    nodes: &mut [Node],
    links: &mut [u32],
    count: usize,
    k: usize,
    action: u8,
    moves: u32,
)
    requires { (count < length nodes.old) × (k < count) × SetIn (node_at nodes.old k).unused × (action < actions) × (length links.old ≡ 2 * linked) }
    ensures { (nodes.new ≡ below_of nodes.old count k action moves) × (links.new ≡ link_of links.old k count) }
{
    let n = node_at(nodes, k);
    let m = without(n, action);
    put_node(nodes, k, m);
    let new = Node::new(k, action, moves);
    put_node(nodes, count, new);
    link(links, k, count);
}

// The draws are gone through again: each names a move that the record has left.
pub fn store_path(
    nodes: &mut [Node],
    links: &mut [u32],
    draws: &[u8],
    context: CraftContext,
    start: CraftState,
    count: usize,
    k: usize,
    at: usize,
    stored: usize,
) -> usize
    requires { Storing context start nodes.old count k links.old draws.now at stored }
    ensures { Stores context start nodes.old count k draws.now at stored result nodes.new links.new }
{
    let mut end = k;
    let mut state = start;
    for i in 0..stored {
        let n = node_at(nodes, end);
        let unused = Bits { bits: n.unused };
        let action = sampled(draws, at + i, unused);
        state = stepped(context, state, action);
        let moves = moves::moves_at_once(Craft { context, state }, Mode::STRICT);
        insert_below(nodes, links, count + i, end, action, moves.bits);
        end = count + i;
    }
    end
}
