// The best child of a record in the search, kept in a walk over the children, the newest first.

#![tactic(auto)]

ghost use Rattle.std.specs.Prelude.{◌≡◌};
ghost use Rattle.rates.specs.Best.{rated, better_of};
ghost use Rattle.rates.specs.inner.Holds.{Kept, Asks};

// What the ucb1 of all children of one record share: two weights, and the logarithm of the record's visits.
#[derive(Clone, Copy)]
pub struct Weights {
    pub w: f32,
    pub c: f32,
    pub ln: f32,
}

// The best child so far, with its ucb1 and the part of it that was gained.
#[derive(Clone, Copy)]
pub struct Best {
    pub at: usize,
    pub rate: f32,
    pub visits: f32,
    pub gained: f32,
}

// Child k, with its root worked out. One piece with `better`, as `ucb1::exploration` with it.
#[inline(always)]
fn rated(k: usize, visits: f32, gained: f32, weights: Weights) -> Best
    ensures { result ≡ rated k visits gained weights }
{
    Best {
        at: k,
        rate: gained + ucb1::exploration(weights.c, weights.ln, visits),
        visits,
        gained,
    }
}

// The best child, when child k comes after those that it was found among. One that was visited no less and gained no more than the best is no
// better, so its root is not worked out. The child's three floats are those of a record of the tree: a struct of them would be made for this call alone.
pub fn better(
    best: Option<Best>,
    k: usize,
    visits: f32,
    score_sum: f32,
    max_score: f32,
    weights: Weights,
) -> Best
    requires { Asks best visits score_sum max_score weights }
    ensures { (result ≡ better_of best k visits score_sum max_score weights) × Kept weights result }
{
    let gained = ucb1::exploitation(weights.w, visits, score_sum, max_score);
    let Some(best) = best else {
        return rated(k, visits, gained, weights);
    };
    if best.visits <= visits && gained <= best.gained {
        return best;
    }
    let child = rated(k, visits, gained, weights);
    if best.rate < child.rate { child } else { best }
}
