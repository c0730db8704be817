// The scan that decides whether a tree is sound, and the refusals of a tree and of a record's number.
ghost use Rattle.std.specs.Prelude.{◌≡◌};
ghost use Rattle.refusal.specs.Judge.{checked_of};
ghost use Rattle.tree.specs.Refusals.{tree_test, node_test};
ghost use Rattle.tree.specs.Tree.{is_sound};

use super::node::Node;
use super::records::node_at;
use super::soundness::is_sound_at;
use refusal::Refusal;

// A count from 1 to the number of records; only the records below it are judged.
pub fn is_sound(nodes: &[Node], count: usize) -> bool
    ensures { result ≡ is_sound nodes.now count }
{
    if count == 0 || nodes.len() < count {
        return false;
    }
    for k in 0..count {
        if !is_sound_at(k, node_at(nodes, k)) {
            return false;
        }
    }
    true
}

// Refusal 7.
pub fn check_tree(nodes: &[Node], count: usize) -> Result<(), Refusal>
    ensures { result ≡ checked_of (tree_test nodes.now count) }
{
    if is_sound(nodes, count) {
        return Ok(());
    }
    Err(Refusal::UnsoundTree)
}

// Refusal 8: a record of that number is not used.
pub fn check_node(count: usize, k: usize) -> Result<(), Refusal>
    ensures { result ≡ checked_of (node_test count k) }
{
    if k < count {
        return Ok(());
    }
    Err(Refusal::UnknownNode)
}
