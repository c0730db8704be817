// The way up from a record to one above it: walked once to test, and once to write.
ghost use Rattle.std.specs.Prelude.{◌≡◌, ◌<◌, length};
ghost use Rattle.tree.specs.Tree.{touched_at, back_of};
ghost use Rattle.tree.specs.inner.Back.{Climbs, Reaches, Surveys};

use super::node::{Node, is_full, touched};
use super::records::{node_at, put_node};

// Whether the target is the start or above it; and then whether a record from start to target is full.
#[derive(Clone, Copy, Debug, PartialEq, Eq)]
pub struct Survey {
    pub above: bool,
    pub full: bool,
}

// A parent has a smaller number, so a target whose number was passed by is not above.
pub fn survey_path(nodes: &[Node], start: usize, target: usize) -> Survey
    requires { Climbs nodes.now start }
    ensures { Surveys nodes.now start target result }
{
    let mut full = false;
    let mut k = start;
    // The steps are the records' own, so no range goes over them.
    while target < k {
        let n = node_at(nodes, k);
        full |= is_full(n);
        k = n.parent;
    }
    Survey {
        above: k == target,
        full: full | is_full(node_at(nodes, k)),
    }
}

fn touch(nodes: &mut [Node], k: usize, score: f32)
    requires { k < length nodes.old }
    ensures { nodes.new ≡ touched_at nodes.old k score }
{
    let n = node_at(nodes, k);
    put_node(nodes, k, touched(n, score));
}

// The way comes by the target, so it ends there. Again the steps are the records' own.
pub fn touch_path(nodes: &mut [Node], start: usize, target: usize, score: f32)
    requires { Reaches nodes.old start target }
    ensures { nodes.new ≡ back_of nodes.old start target score }
{
    let mut k = start;
    while target < k {
        let parent = node_at(nodes, k).parent;
        touch(nodes, k, score);
        k = parent;
    }
    touch(nodes, target, score);
}
