// The result of a state, by document 01's order.
ghost use Rattle.std.specs.Prelude.{◌≡◌};
ghost use Rattle.score.specs.Result.{judged_by, result_of, ScoreIsNumber};

use super::scoring::score;
use craft_state::Craft;
use moves::Mode;

#[derive(Clone, Copy, Debug, PartialEq)]
pub enum CraftResult {
    // Progress is at its target: the score, which is asked for inside; that it is a number is a promise beside each answer.
    Finished(f32),
    DurabilityFailure,
    MaxStepsFailure,
    // No move is left, or an illegal action was given.
    InvalidActionFailure,
    Continuing,
}

// By the state's legal moves. One piece with each caller, as `step::execute`.
#[inline(always)]
#[tactic(auto, using(craft_state::specs::laws::Inside::durability_read), unfolding(crate::specs::Result::judged_by))]
pub fn judge(craft: Craft, moves: u32) -> CraftResult
    ensures { (result ≡ judged_by craft.context craft.state moves) × ScoreIsNumber result }
{
    let is_worn = craft.state.durability <= 0;
    let is_late = craft.state.step >= craft.context.step_max;
    if craft.state.progress >= craft.context.progress_target {
        return CraftResult::Finished(score(craft));
    }
    if is_worn {
        return CraftResult::DurabilityFailure;
    }
    if is_late {
        return CraftResult::MaxStepsFailure;
    }
    if moves == 0 {
        return CraftResult::InvalidActionFailure;
    }
    CraftResult::Continuing
}

// The moves are worked out anew, in the mode of the call.
pub fn check_result(craft: Craft, mode: Mode) -> CraftResult
    ensures { (result ≡ result_of craft.context craft.state mode) × ScoreIsNumber result }
{
    judge(craft, moves::legal_moves(craft, mode).bits)
}
