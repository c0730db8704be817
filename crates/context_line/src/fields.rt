// A context from fifteen numbers, one for each field in their order.
ghost use Rattle.std.specs.Prelude.{◌≡◌, ◌<◌, length, get_or};
ghost use Rattle.refusal.specs.Judge.{checks_of, Says, answering};
ghost use Rattle.context_line.specs.Fields.{context_of, number_tests};
ghost use Rattle.context_line.specs.inner.Fields.{listed, early_tests, late_tests, Fitting, word_of};

use action_set::ActionSet;
use craft_context::{CraftContext, place, within};
use refusal::Refusal;

pub const FIELDS: usize = 15;

// A number for each field, as a host gives them (the C interface).
#[derive(Clone, Copy)]
pub struct Fields {
    pub player_job_level: u32,
    pub recipe_job_level: u32,
    pub base_progress_factor: u32,
    pub base_quality_factor: u32,
    pub step_max: u32,
    pub progress_target: u32,
    pub starting_quality: u32,
    pub quality_target: u32,
    pub durability_max: u32,
    pub cp_max: u32,
    pub is_expert: u32,
    pub action_pool: u32,
    pub player_is_specialist: u32,
    pub use_manipulation: u32,
    pub use_delineation: u32,
}

// The greatest number of each type that a field has and its limit does not narrow: u32, u8.
const WORD_MOST: u64 = 4294967295;

const BYTE_MOST: u32 = 255;

// A flag is 0 or 1, and 1 sets it.
const FLAG_SET: u32 = 1;

// Refusal 1 for the first field that does not take its number, with its place, of those before durability. A level takes any.
fn check_early(numbers: Fields) -> Result<(), Refusal>
    ensures { result ≡ checks_of (early_tests (listed numbers)) }
{
    within(
        numbers.base_progress_factor <= CraftContext::FACTOR_MOST,
        place::BASE_PROGRESS_FACTOR,
    )?;
    within(
        numbers.base_quality_factor <= CraftContext::FACTOR_MOST,
        place::BASE_QUALITY_FACTOR,
    )?;
    within(numbers.step_max <= BYTE_MOST, place::STEP_MAX)?;
    within(
        numbers.progress_target <= CraftContext::TARGET_MOST,
        place::PROGRESS_TARGET,
    )?;
    within(
        numbers.starting_quality <= CraftContext::TARGET_MOST,
        place::STARTING_QUALITY,
    )?;
    within(
        numbers.quality_target <= CraftContext::TARGET_MOST,
        place::QUALITY_TARGET,
    )
}

// And of those from durability on.
fn check_late(numbers: Fields) -> Result<(), Refusal>
    ensures { result ≡ checks_of (late_tests (listed numbers)) }
{
    within(
        craft_context::lasts(numbers.durability_max),
        place::DURABILITY_MAX,
    )?;
    within(numbers.cp_max <= CraftContext::TARGET_MOST, place::CP_MAX)?;
    within(numbers.is_expert <= FLAG_SET, place::IS_EXPERT)?;
    within(numbers.action_pool < ActionSet::LIMIT, place::ACTION_POOL)?;
    within(
        numbers.player_is_specialist <= FLAG_SET,
        place::PLAYER_IS_SPECIALIST,
    )?;
    within(
        numbers.use_manipulation <= FLAG_SET,
        place::USE_MANIPULATION,
    )?;
    within(numbers.use_delineation <= FLAG_SET, place::USE_DELINEATION)
}

#[tactic(auto, unfolding(crate::specs::Fields::context_of))]
fn context_of(numbers: Fields) -> CraftContext
    requires { Fitting numbers }
    ensures { result ≡ context_of (listed numbers) }
{
    CraftContext {
        player_job_level: numbers.player_job_level,
        recipe_job_level: numbers.recipe_job_level,
        base_progress_factor: numbers.base_progress_factor,
        base_quality_factor: numbers.base_quality_factor,
        step_max: numbers.step_max as u8,
        progress_target: numbers.progress_target,
        starting_quality: numbers.starting_quality,
        quality_target: numbers.quality_target,
        durability_max: numbers.durability_max as i8,
        cp_max: numbers.cp_max,
        is_expert: numbers.is_expert == FLAG_SET,
        action_pool: ActionSet(numbers.action_pool),
        player_is_specialist: numbers.player_is_specialist == FLAG_SET,
        use_manipulation: numbers.use_manipulation == FLAG_SET,
        use_delineation: numbers.use_delineation == FLAG_SET,
    }
}

// The context of these numbers, or refusal 1 for the first field that does not take its number.
pub fn from_fields(numbers: Fields) -> Result<CraftContext, Refusal>
    ensures { Says answering (number_tests (listed numbers)) (Ok (context_of (listed numbers))) result }
{
    check_early(numbers)?;
    check_late(numbers)?;
    Ok(context_of(numbers))
}

// The number in one place. The greatest u32 stands for every greater number: no field but a level takes it.
fn word(values: &[u64], k: usize) -> u32
    requires { k < length values.now }
    ensures { result ≡ word_of (get_or values.now k 0) }
{
    u32::try_from(values[k]).unwrap_or(u32::MAX)
}

// The same of any fifteen numbers in their order. The levels come first.
pub fn from_numbers(values: &[u64; FIELDS]) -> Result<CraftContext, Refusal>
    ensures { Says answering (number_tests values.now) (Ok (context_of values.now)) result }
{
    within(
        values[place::PLAYER_JOB_LEVEL] <= WORD_MOST,
        place::PLAYER_JOB_LEVEL,
    )?;
    within(
        values[place::RECIPE_JOB_LEVEL] <= WORD_MOST,
        place::RECIPE_JOB_LEVEL,
    )?;
    let numbers = Fields {
        player_job_level: word(values, place::PLAYER_JOB_LEVEL),
        recipe_job_level: word(values, place::RECIPE_JOB_LEVEL),
        base_progress_factor: word(values, place::BASE_PROGRESS_FACTOR),
        base_quality_factor: word(values, place::BASE_QUALITY_FACTOR),
        step_max: word(values, place::STEP_MAX),
        progress_target: word(values, place::PROGRESS_TARGET),
        starting_quality: word(values, place::STARTING_QUALITY),
        quality_target: word(values, place::QUALITY_TARGET),
        durability_max: word(values, place::DURABILITY_MAX),
        cp_max: word(values, place::CP_MAX),
        is_expert: word(values, place::IS_EXPERT),
        action_pool: word(values, place::ACTION_POOL),
        player_is_specialist: word(values, place::PLAYER_IS_SPECIALIST),
        use_manipulation: word(values, place::USE_MANIPULATION),
        use_delineation: word(values, place::USE_DELINEATION),
    };
    from_fields(numbers)
}
