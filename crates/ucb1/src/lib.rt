// What the search picks a child by, its ucb1: how well it did, and how little was tried of it. The walk over children adds the two, and asks for
// the second, which has a root in it, only where the first leaves something open. Each operation is rounded, so their order is that of simulator.rs.

#![tactic(auto)]

ghost use Rattle.std.specs.Prelude.{◌≡◌};
ghost use Rattle.ucb1.specs.Ucb1.{exploitation_of, exploration_of};

#[tactic(auto, using(laws::specs::laws::Floats::one_bits))]
pub fn exploitation(w: f32, visits: f32, score_sum: f32, max_score: f32) -> f32
    ensures { result ≡ exploitation_of w visits score_sum max_score }
{
    let average_score = score_sum / visits;
    (1.0 - w) * average_score + w * max_score
}

// The logarithm is that of the parent's visits. One piece with each caller, so that c * ln is worked out once for all children.
#[inline(always)]
pub fn exploration(c: f32, ln: f32, visits: f32) -> f32
    ensures { result ≡ exploration_of c ln visits }
{
    sqrt::sqrt(c * ln / visits)
}
