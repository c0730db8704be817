// The records in their lent slice, read and written one at a time: every other function reaches them through these.
ghost use Rattle.std.specs.Prelude.{◌≡◌, ◌<◌, length, slice_set};
ghost use Rattle.tree.specs.Tree.{node_at};

use super::node::Node;

pub fn node_at(nodes: &[Node], k: usize) -> Node
    requires { k < length nodes.now }
    ensures { result ≡ node_at nodes.now k }
{
    nodes[k]
}

pub fn put_node(nodes: &mut [Node], k: usize, n: Node)
    requires { k < length nodes.old }
    ensures { nodes.new ≡ slice_set nodes.old k n }
{
    nodes[k] = n;
}
