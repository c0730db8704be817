// A context from player, recipe and options.
ghost use Rattle.std.specs.Prelude.{◌≡◌};
ghost use Rattle.refusal.specs.Judge.{checks_of};
ghost use Rattle.craft_context.specs.Limits.{divides as Limits·divides};
ghost use Rattle.craft_context.specs.inner.Build.{sheet_tests, Buildable};
ghost use Rattle.craft_context.specs.Build.{built_of, New};

use super::context::{CraftContext, within};
use super::factor::Factor;
use super::pool::determine_action_pool;
use super::sheet::{CraftOptions, Player, Recipe};
use action_set::ActionSet;
use refusal::Refusal;

// The places that refusal 1 tells, of what has a limit of its own: player's four fields come first, then recipe's twelve and options' six, then those of the
// built context.
const CRAFTSMANSHIP: usize = 1;

const CONTROL: usize = 2;

const PROGRESS_DIV: usize = 10;

const PROGRESS_MOD: usize = 11;

const QUALITY_DIV: usize = 12;

const QUALITY_MOD: usize = 13;

const CONTEXT: usize = 22;

const PROGRESS_PLUS: u32 = 2;

const QUALITY_PLUS: u32 = 35;

fn divides(div: u32) -> bool
    ensures { result ≡ Limits·divides div }
{
    (1..=CraftContext::DIV_MOST).contains(&div)
}

// Refusal 1: a number to build from is outside its limit, whether it is used or not. The place is of the first.
fn check_build(player: Player, recipe: Recipe) -> Result<(), Refusal>
    ensures { result ≡ checks_of (sheet_tests player recipe) }
{
    within(
        player.craftsmanship <= CraftContext::STAT_MOST,
        CRAFTSMANSHIP,
    )?;
    within(player.control <= CraftContext::STAT_MOST, CONTROL)?;
    within(divides(recipe.progress_div), PROGRESS_DIV)?;
    within(recipe.progress_mod <= CraftContext::MOD_MOST, PROGRESS_MOD)?;
    within(divides(recipe.quality_div), QUALITY_DIV)?;
    within(recipe.quality_mod <= CraftContext::MOD_MOST, QUALITY_MOD)
}

#[tactic(auto, unfolding(refusal::specs::Judge::judged, crate::specs::Build::built_of))]
fn build(player: Player, recipe: Recipe, options: CraftOptions) -> CraftContext
    requires { Buildable player recipe }
    ensures { result ≡ built_of player recipe options }
{
    let scaled = player.job_level <= recipe.job_level;
    let progress = Factor {
        stat: player.craftsmanship,
        div: recipe.progress_div,
        plus: PROGRESS_PLUS,
        modifier: recipe.progress_mod,
        scaled,
    };
    let quality = Factor {
        stat: player.control,
        div: recipe.quality_div,
        plus: QUALITY_PLUS,
        modifier: recipe.quality_mod,
        scaled,
    };
    CraftContext {
        player_job_level: player.job_level,
        recipe_job_level: recipe.job_level,
        base_progress_factor: progress.truncated(),
        base_quality_factor: quality.truncated(),
        step_max: options.max_steps,
        progress_target: recipe.progress,
        starting_quality: options.starting_quality.unwrap_or(0),
        quality_target: options.quality_target.unwrap_or(recipe.quality),
        durability_max: recipe.durability,
        cp_max: player.cp,
        is_expert: recipe.is_expert,
        action_pool: ActionSet(determine_action_pool(player, recipe)),
        player_is_specialist: options.player_is_specialist,
        use_manipulation: options.use_manipulation,
        use_delineation: options.use_delineation,
    }
}

impl CraftContext {
    pub fn new(
        player: Player,
        recipe: Recipe,
        options: CraftOptions,
    ) -> Result<CraftContext, Refusal>
        ensures { New player recipe options result }
    {
        check_build(player, recipe)?;
        let context = build(player, recipe, options);
        context.check_from(CONTEXT)?;
        Ok(context)
    }
}
