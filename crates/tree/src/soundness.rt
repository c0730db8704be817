// Whether one record is sound at its number.
ghost use Rattle.std.specs.Prelude.{◌≡◌};
ghost use Rattle.action_set.specs.Sets.{is_set};
ghost use Rattle.tree.specs.Sound.{placed, is_count, within, is_maximum, sound_at};

use super::node::Node;
use action::ACTIONS;
use action_set::ActionSet;
use std::num;

// The bits of minus zero: those of a number from +0 on are below them.
const MINUS_ZERO: u32 = 0x8000_0000;

// Record 0 is its own parent and has no action.
fn is_placed(k: usize, parent: usize, action: u8) -> bool
    ensures { result ≡ placed k parent action }
{
    if k == 0 {
        return (parent == 0) & (action == Node::NO_ACTION);
    }
    (parent < k) & (action < ACTIONS)
}

// A whole number of visits: cutting off a fraction changes nothing.
fn is_count(visits: f32) -> bool
    ensures { result ≡ is_count visits }
{
    if (0.0 <= visits) & (visits <= Node::VISITS_MOST) {
        return num::truncating_f32_to_u64(visits) as f32 == visits;
    }
    false
}

// At most so far from zero.
fn is_within(sum: f32, visits: f32) -> bool
    ensures { result ≡ within sum visits }
{
    (-visits <= sum) & (sum <= visits)
}

// From +0 to 1: minus zero is told by its bits alone.
fn is_maximum(score: f32) -> bool
    ensures { result ≡ is_maximum score }
{
    if (0.0 <= score) & (score <= Node::SCORE_MOST) {
        return f32::to_bits(score) < MINUS_ZERO;
    }
    false
}

// Bit 31 is clear.
fn is_set(unused: u32) -> bool
    ensures { result ≡ is_set unused }
{
    unused < ActionSet::LIMIT
}

// Record k of a tree: a NaN fails every comparison.
#[tactic(auto, unfolding(crate::specs::Sound::sound_at))]
pub fn is_sound_at(k: usize, n: Node) -> bool
    ensures { result ≡ sound_at k n }
{
    is_placed(k, n.parent, n.action)
        & is_count(n.visits)
        & is_within(n.score_sum, n.visits)
        & is_maximum(n.max_score)
        & is_set(n.unused)
}
