// The replay of a list of numbers.
ghost use Rattle.std.specs.Prelude.{[], ◌∷◌};
ghost use Rattle.craft_context.specs.Limits.{ContextIn};
ghost use Rattle.context_line.specs.inner.Fields.{listed};
ghost use Rattle.moves.specs.Modes.{mode_of};
ghost use Rattle.crafty_c.specs.Reports.{TellsNumbers};
ghost use Rattle.crafty_c.specs.inner.Reports.{Reports, ReportsNumbers};

use super::answer::{CraftyAnswer, answer};
use super::numbers::{NUMBERS, numbers, put_numbers};
use context_line::Fields;
use craft_context::CraftContext;
use moves::Mode;
use refusal::Refusal;

// In a context inside its limits.
fn report(context: CraftContext, mode: Mode, list: &[u8], out: &mut [u32]) -> Result<usize, Refusal>
    requires { ContextIn context }
    ensures { Reports context mode list.now out.old result out.new }
{
    action::check_list(list)?;
    refusal::check_room(out.len(), NUMBERS)?;
    let told = numbers(simulator::execute_actions(context, mode, list));
    put_numbers(out, &told);
    Ok(NUMBERS)
}

// In a context given by the numbers of its fields.
fn replay(numbers: Fields, mode: Mode, list: &[u8], out: &mut [u32]) -> Result<usize, Refusal>
    ensures { ReportsNumbers (listed numbers) mode list.now out.old result out.new }
{
    let context = context_line::from_fields(numbers)?;
    report(context, mode, list, out)
}

// The C interface: fifteen numbers, which `Fields` names.
#[unsafe(no_mangle)]
pub extern "C" fn crafty_replay(
    player_job_level: u32,
    recipe_job_level: u32,
    base_progress_factor: u32,
    base_quality_factor: u32,
    step_max: u32,
    progress_target: u32,
    starting_quality: u32,
    quality_target: u32,
    durability_max: u32,
    cp_max: u32,
    is_expert: u32,
    action_pool: u32,
    player_is_specialist: u32,
    use_manipulation: u32,
    use_delineation: u32,
    strict: bool,
    list: &[u8],
    out: &mut [u32],
) -> CraftyAnswer
    ensures { TellsNumbers (player_job_level ∷ recipe_job_level ∷ base_progress_factor ∷ base_quality_factor ∷ step_max ∷ progress_target ∷ starting_quality ∷ quality_target ∷ durability_max ∷ cp_max ∷ is_expert ∷ action_pool ∷ player_is_specialist ∷ use_manipulation ∷ use_delineation ∷ []) (mode_of strict) list.now out.old result out.new }
{
    let numbers = Fields {
        player_job_level,
        recipe_job_level,
        base_progress_factor,
        base_quality_factor,
        step_max,
        progress_target,
        starting_quality,
        quality_target,
        durability_max,
        cp_max,
        is_expert,
        action_pool,
        player_is_specialist,
        use_manipulation,
        use_delineation,
    };
    let mode = moves::mode_of(strict);
    answer(replay(numbers, mode, list, out))
}
