// The context, and the test of any context against its limits.
ghost use Rattle.std.specs.Prelude.{◌≡◌, ◌≤◌, pos};
ghost use Rattle.refusal.specs.Judge.{checked_of, checks_of};
ghost use Rattle.refusal.specs.Limits.{limit_test, limits_from};
ghost use Rattle.craft_context.specs.Limits.{durable, context_limits, ChecksContext};
ghost use Rattle.craft_context.specs.inner.Build.{context_first};

use super::place;
use action_set::ActionSet;
use refusal::Refusal;

// Entries take any; inside, `ContextIn` is asked where a context is handed on by its fields, and `craft_state::Craft` holds it beside a state.
#[derive(Clone, Copy, Debug, PartialEq, Eq)]
pub struct CraftContext {
    pub player_job_level: u32,
    pub recipe_job_level: u32,
    pub base_progress_factor: u32,
    pub base_quality_factor: u32,
    pub step_max: u8,
    pub progress_target: u32,
    pub starting_quality: u32,
    pub quality_target: u32,
    pub durability_max: i8,
    pub cp_max: u32,
    pub is_expert: bool,
    pub action_pool: ActionSet,
    pub player_is_specialist: bool,
    pub use_manipulation: bool,
    pub use_delineation: bool,
}

// A durability from 1 to its most.
pub fn lasts(n: u32) -> bool
    ensures { result ≡ durable (pos n) }
{
    (1..=CraftContext::DURABILITY_MOST).contains(&n)
}

fn is_durable(z: i8) -> bool
    ensures { result ≡ durable z }
{
    u32::try_from(z).is_ok_and(lasts)
}

// Refusal 1 of one field, if it is not inside its limit, with its place.
pub fn within(inside: bool, place: usize) -> Result<(), Refusal>
    ensures { result ≡ checked_of (limit_test place inside) }
{
    if inside {
        return Ok(());
    }
    Err(Refusal::OutsideLimits(place))
}

impl CraftContext {
    // Of craftsmanship and control, both div and both mod, from which a context is built.
    pub const STAT_MOST: u32 = 10000;

    pub const DIV_MOST: u32 = 1000;

    pub const MOD_MOST: u32 = 200;

    pub const FACTOR_MOST: u32 = 200070;

    // Of progress and quality targets, starting quality and points.
    pub const TARGET_MOST: u32 = 1000000;

    pub const DURABILITY_MOST: u32 = 97;

    // Refusal 1: a field is outside its limit.
    pub fn check(self) -> Result<(), Refusal>
        ensures { ChecksContext self result }
    {
        self.check_from(0)
    }

    // Where the first field of all has the place `from`. Levels, steps and flags have no limit.
    pub(crate) fn check_from(self, from: usize) -> Result<(), Refusal>
        requires { from ≤ context_first }
        ensures { result ≡ checks_of (limits_from from 0 (context_limits self)) }
    {
        within(
            self.base_progress_factor <= Self::FACTOR_MOST,
            from + place::BASE_PROGRESS_FACTOR,
        )?;
        within(
            self.base_quality_factor <= Self::FACTOR_MOST,
            from + place::BASE_QUALITY_FACTOR,
        )?;
        within(
            self.progress_target <= Self::TARGET_MOST,
            from + place::PROGRESS_TARGET,
        )?;
        within(
            self.starting_quality <= Self::TARGET_MOST,
            from + place::STARTING_QUALITY,
        )?;
        within(
            self.quality_target <= Self::TARGET_MOST,
            from + place::QUALITY_TARGET,
        )?;
        within(
            is_durable(self.durability_max),
            from + place::DURABILITY_MAX,
        )?;
        within(self.cp_max <= Self::TARGET_MOST, from + place::CP_MAX)?;
        within(
            self.action_pool.0 < ActionSet::LIMIT,
            from + place::ACTION_POOL,
        )
    }
}
