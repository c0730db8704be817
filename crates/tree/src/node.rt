// One record of the tree: made, and visited with a score.
ghost use Rattle.std.specs.Prelude.{◌≡◌};
ghost use Rattle.refusal.specs.Judge.{checked_of};
ghost use Rattle.tree.specs.Node.{node_of, root_node, score_test, is_full, greater_of, touched_of};

use action::ACTIONS;
use refusal::Refusal;

// Laid out as in C, so that hosts lend their own records.
#[repr(C)]
#[derive(Clone, Copy, Debug, PartialEq)]
pub struct Node {
    // The record's number above it; 0 in record 0.
    pub parent: usize,
    pub action: u8,
    // A whole number.
    pub visits: f32,
    pub score_sum: f32,
    pub max_score: f32,
    // The moves not drawn from it yet, bit n for action n; what they are is for the caller to say.
    pub unused: u32,
}

impl Node {
    // The action of record 0: the number past the last.
    pub const NO_ACTION: u8 = ACTIONS;

    // Up to here a whole number is exact in f32.
    pub const VISITS_MOST: f32 = 16777216.0;

    pub const SCORE_LEAST: f32 = -1.0;

    pub const SCORE_MOST: f32 = 1.0;

    // A record that was never visited.
    #[tactic(auto, using(crate::specs::laws::Float::zero_bits))]
    pub fn new(parent: usize, action: u8, unused: u32) -> Node
        ensures { result ≡ node_of parent action unused }
    {
        Node {
            parent,
            action,
            visits: 0.0,
            score_sum: 0.0,
            max_score: 0.0,
            unused,
        }
    }

    // Record 0 of a new tree.
    pub fn root(unused: u32) -> Node
        ensures { result ≡ root_node unused }
    {
        Node::new(0, Node::NO_ACTION, unused)
    }
}

// Refusal 10: a NaN fails both comparisons.
#[tactic(auto, using(laws::specs::laws::Floats::one_bits, crate::specs::laws::Float::minus_one_bits))]
pub fn check_score(score: f32) -> Result<(), Refusal>
    ensures { result ≡ checked_of (score_test score) }
{
    if (Node::SCORE_LEAST <= score) & (score <= Node::SCORE_MOST) {
        return Ok(());
    }
    Err(Refusal::BadScore)
}

// Whether the record takes no visit more.
#[tactic(auto, using(crate::specs::laws::Float::most_bits))]
pub fn is_full(n: Node) -> bool
    ensures { result ≡ is_full n }
{
    n.visits >= Node::VISITS_MOST
}

// The maximum stays where the score is equal to it, so +0 stays when -0 comes: f32::max may answer either.
fn greater(maximum: f32, score: f32) -> f32
    ensures { result ≡ greater_of maximum score }
{
    if maximum < score {
        return score;
    }
    maximum
}

// The record after one more visit, with this score.
#[tactic(auto, using(laws::specs::laws::Floats::one_bits), unfolding(crate::specs::Node::touched_of))]
pub fn touched(n: Node, score: f32) -> Node
    ensures { result ≡ touched_of n score }
{
    Node {
        visits: n.visits + 1.0,
        score_sum: n.score_sum + score,
        max_score: greater(n.max_score, score),
        ..n
    }
}
