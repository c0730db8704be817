// The way down from record 0, by the best child of each: what `solution` writes.
ghost use Rattle.std.specs.Prelude.{◌≡◌, ◌<◌, ◌≤◌, length};
ghost use Rattle.text.specs.Over.{over};
ghost use Rattle.tree.specs.Tree.{best_of, solution_of, end_of};
ghost use Rattle.tree.specs.inner.Best.{child_at};
ghost use Rattle.tree.specs.inner.Sound.{SoundTree};

use super::best::pick;
use super::node::Node;
use super::records::node_at;

// A child is above its parent, so the search starts after it.
pub fn best_child(nodes: &[Node], count: usize, parent: usize) -> Option<usize>
    requires { SoundTree nodes.now count × (parent < count) }
    ensures { result ≡ child_at (best_of count nodes.now parent) }
{
    let mut best = None;
    for k in parent + 1..count {
        best = pick(best, k, node_at(nodes, k), parent);
    }
    Some(best?.at)
}

// How many actions the way down has. Each step is the record's own, here and below, so no range goes over them; a sound tree is asked, since the C interface
// lends records and a count.
pub fn solution_len(nodes: &[Node], count: usize) -> usize
    requires { SoundTree nodes.now count }
    ensures { result ≡ length (solution_of nodes.now count) }
{
    let mut len = 0;
    let mut last = 0;
    while let Some(child) = best_child(nodes, count, last) {
        len += 1;
        last = child;
    }
    len
}

// Stores the actions of the way down, and answers its last record.
pub fn put_solution(nodes: &[Node], out: &mut [u8], count: usize) -> usize
    requires { SoundTree nodes.now count × (length (solution_of nodes.now count) ≤ length out.old) }
    ensures { (result ≡ end_of nodes.now count) × (out.new ≡ over out.old 0 (solution_of nodes.now count)) }
{
    let mut at = 0;
    let mut last = 0;
    while let Some(child) = best_child(nodes, count, last) {
        out[at] = node_at(nodes, child).action;
        at += 1;
        last = child;
    }
    last
}
