// The child that `solution` takes, found in one walk over the records.
ghost use Rattle.std.specs.Prelude.{◌≡◌};
ghost use Rattle.tree.specs.Tree.{is_child};
ghost use Rattle.tree.specs.inner.Best.{is_better, pick_of};

use super::node::Node;

// A child, the best so far.
#[derive(Clone, Copy, Debug, PartialEq)]
pub struct Best {
    pub at: usize,
    pub max_score: f32,
}

// Record 0 is no child of itself.
pub fn is_child(k: usize, n: Node, parent: usize) -> bool
    ensures { result ≡ is_child k n parent }
{
    (k != 0) & (n.parent == parent)
}

// Of equal children the last is taken.
pub fn is_better(best: Option<Best>, n: Node) -> bool
    ensures { result ≡ is_better best n }
{
    match best {
        None => true,
        Some(best) => n.max_score >= best.max_score,
    }
}

// The best child, when record k comes after those that it was found among.
#[tactic(auto, unfolding(crate::specs::inner::Best::pick_of))]
pub fn pick(best: Option<Best>, k: usize, n: Node, parent: usize) -> Option<Best>
    ensures { result ≡ pick_of best k n parent }
{
    if is_child(k, n, parent) && is_better(best, n) {
        return Some(Best {
            at: k,
            max_score: n.max_score,
        });
    }
    best
}
