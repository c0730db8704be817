// The score, bit for bit as craft_state.rs works it out in f32.
ghost use Rattle.std.specs.Prelude.{◌≡◌, not, T, is_nan};
ghost use Rattle.laws.specs.Floats.{float};
ghost use Rattle.score.specs.Score.{capped_of, part_of, fewer_of, weighed_of, score_of};

use craft_context::CraftContext;
use craft_state::{Craft, CraftState};
use std::num;

// The most that each part adds to a score: 1 in all.
const PROGRESS_BONUS: f32 = 0.20;

const QUALITY_BONUS: f32 = 0.65;

const DURABILITY_BONUS: f32 = 0.05;

const CP_BONUS: f32 = 0.05;

const FEWER_STEPS_BONUS: f32 = 0.05;

// Rust's 1f32.min(quotient), which is 1 at a NaN: 0 / 0 counts as full.
#[tactic(auto, using(laws::specs::laws::Floats::one_bits))]
fn capped(quotient: f32) -> f32
    ensures { result ≡ capped_of quotient }
{
    if quotient < 1.0 {
        return quotient;
    }
    1.0
}

fn part(bonus: f32, value: f32, target: f32) -> f32
    ensures { result ≡ part_of bonus value target }
{
    bonus * capped(value / target)
}

// A part of whole numbers.
fn whole_part(bonus: f32, value: u32, target: u32) -> f32
    ensures { result ≡ part_of bonus (float value) (float target) }
{
    part(
        bonus,
        num::nearest_u32_to_f32(value),
        num::nearest_u32_to_f32(target),
    )
}

// The share of the steps that is left: minus infinity where step_max is 0, since a step is at least 1.
#[tactic(auto, using(laws::specs::laws::Floats::one_bits))]
fn fewer_steps(step: u8, step_max: u8) -> f32
    ensures { result ≡ fewer_of step step_max }
{
    1.0 - step as f32 / step_max as f32
}

// Each sum is rounded, so the parts are added from left to right.
fn weighed(context: CraftContext, state: CraftState) -> f32
    ensures { result ≡ weighed_of context state }
{
    let progress = whole_part(PROGRESS_BONUS, state.progress, context.progress_target);
    let quality = whole_part(QUALITY_BONUS, state.quality, context.quality_target);
    let durability = part(
        DURABILITY_BONUS,
        state.durability as f32,
        context.durability_max as f32,
    );
    let cp = whole_part(CP_BONUS, state.cp, context.cp_max);
    let fewer = FEWER_STEPS_BONUS * fewer_steps(state.step, context.step_max);
    progress + quality + durability + cp + fewer
}

// Without a quality target the steps alone count.
#[inline(always)]
pub fn score(craft: Craft) -> f32
    ensures { (result ≡ score_of craft.context craft.state) × T (not (is_nan result)) }
{
    if craft.context.quality_target == 0 {
        return fewer_steps(craft.state.step, craft.context.step_max);
    }
    weighed(craft.context, craft.state)
}
