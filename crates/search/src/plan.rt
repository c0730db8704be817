// What an iteration will do, worked out before any record is touched: so one that is refused stores nothing.
ghost use Rattle.std.specs.Prelude.{◌≡◌, ◌+◌, ◌^◌, ◌<◌, ◌≤◌, length};
ghost use Rattle.rollout.specs.inner.Movable.{Movable};
ghost use Rattle.search.specs.Iterate.{score_in, is_worth, stored_of};
ghost use Rattle.search.specs.inner.Ready.{plan_of};

use action_set::bits::Bits;
use craft_context::CraftContext;
use craft_state::CraftState;
use refusal::Refusal;
use score::CraftResult;
use std::cmp;

// How many records are stored, the score that is propagated from the last of them, and the place of the next draw.
#[derive(Clone, Copy, Debug, PartialEq)]
pub struct Plan {
    pub stored: usize,
    pub score: f32,
    pub at: usize,
}

// What is propagated.
fn score_in(res: CraftResult) -> f32
    ensures { result ≡ score_in res }
{
    match res {
        CraftResult::Finished(score) => score,
        _ => 0.0,
    }
}

// Whether the whole path is stored, against the threshold and record 0's greatest score before this iteration.
fn is_worth(threshold: f32, best: f32, res: CraftResult) -> bool
    ensures { result ≡ is_worth threshold best res }
{
    match res {
        CraftResult::Finished(score) => (score >= threshold) & (score >= best),
        _ => false,
    }
}

// Of so many draws: a record for each, or for the first alone.
fn stored_of(whole: bool, used: usize) -> usize
    ensures { (result ≡ stored_of whole used) × (result ≤ used) }
{
    if whole { used } else { cmp::min(used, 1) }
}

// The rollout's first draw is of the record's unused moves; with none of them it ends where it starts.
pub fn planned(
    draws: &[u8],
    context: CraftContext,
    threshold: f32,
    state: CraftState,
    unused: Bits,
    best: f32,
    count: usize,
    records: usize,
    at: usize,
) -> Result<Plan, Refusal>
    requires { Movable context state unused.bits × (at ≤ length draws.now) × (count ≤ records) × (records + length draws.now < 2 ^ 64) }
    ensures { result ≡ plan_of context threshold state unused.bits best count records at draws.now }
{
    let (res, end) = rollout::roll_out(context, state, unused, draws, at)?;
    let whole = is_worth(threshold, best, res);
    let stored = stored_of(whole, end - at);
    refusal::check_room(records, count + stored)?;
    Ok(Plan {
        stored,
        score: score_in(res),
        at: end,
    })
}
