// The children of a record, in record order.
ghost use Rattle.std.specs.Prelude.{◌≡◌, ◌≤◌, length};
ghost use Rattle.text.specs.Over.{over};
ghost use Rattle.tree.specs.Tree.{children_of};

use super::best::is_child;
use super::node::Node;
use super::records::node_at;

pub fn count_children(nodes: &[Node], count: usize, parent: usize) -> usize
    requires { count ≤ length nodes.now }
    ensures { result ≡ length (children_of count nodes.now parent) }
{
    let mut len = 0;
    for k in 0..count {
        if is_child(k, node_at(nodes, k), parent) {
            len += 1;
        }
    }
    len
}

// Stores the numbers of the children, and answers how many they are.
pub fn put_children(nodes: &[Node], out: &mut [usize], count: usize, parent: usize) -> usize
    requires { (count ≤ length nodes.now) × (length (children_of count nodes.now parent) ≤ length out.old) }
    ensures { (result ≡ length (children_of count nodes.now parent)) × (out.new ≡ over out.old 0 (children_of count nodes.now parent)) }
{
    let mut at = 0;
    for k in 0..count {
        if is_child(k, node_at(nodes, k), parent) {
            out[at] = k;
            at += 1;
        }
    }
    at
}
