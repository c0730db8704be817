// The entries over a growing tree: a new one, insertion, and a record by its number.
ghost use Rattle.tree.specs.Grow.{Plants, Inserts, Looks};

use super::node::Node;
use super::records::{node_at, put_node};
use super::scan::{check_node, check_tree};
use action_set::ActionSet;
use refusal::Refusal;

// A new tree is record 0 alone.
const NEW_COUNT: usize = 1;

// The count of the new tree. Record 0 is written, whatever the records held.
pub fn plant(nodes: &mut [Node], unused: u32) -> Result<usize, Refusal>
    ensures { Plants nodes.old unused result nodes.new }
{
    ActionSet(unused).check()?;
    refusal::check_room(nodes.len(), NEW_COUNT)?;
    put_node(nodes, 0, Node::root(unused));
    Ok(NEW_COUNT)
}

// The new record's number and the new count. Its parent's unused moves stay as they are.
#[tactic(auto, using(crate::specs::laws::Tree::checked_tree), unfolding(refusal::specs::Judge::judged))]
pub fn insert(
    nodes: &mut [Node],
    count: usize,
    parent: usize,
    action: u8,
    unused: u32,
) -> Result<(usize, usize), Refusal>
    ensures { Inserts nodes.old count parent action unused result nodes.new }
{
    action_set::check_member(ActionSet(unused), action)?;
    check_tree(nodes, count)?;
    check_node(count, parent)?;
    let next = count + 1;
    refusal::check_room(nodes.len(), next)?;
    put_node(nodes, count, Node::new(parent, action, unused));
    Ok((count, next))
}

#[tactic(auto, using(crate::specs::laws::Tree::checked_tree, crate::specs::laws::Tree::checked_node), unfolding(refusal::specs::Judge::judged))]
pub fn record_at(nodes: &[Node], count: usize, k: usize) -> Result<Node, Refusal>
    ensures { Looks nodes.now count k result }
{
    check_tree(nodes, count)?;
    check_node(count, k)?;
    Ok(node_at(nodes, k))
}
