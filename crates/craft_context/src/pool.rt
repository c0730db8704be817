// Which actions a player has for a recipe.
ghost use Rattle.std.specs.Prelude.{◌≡◌};
ghost use Rattle.craft_context.specs.Pool.{ahead, able, twin_of, in_pool, pool_of};

use super::sheet::{Player, Recipe};
use action_set::ActionSet;
use action_set::bits::Bits;

// Every action.
const ALL: u32 = ActionSet::LIMIT - 1;

// How far the player's level must be ahead for TrainedEye.
const TRAINED_EYE_LEVELS: u32 = 10;

fn levels_ahead(player: Player, recipe: Recipe) -> u32
    ensures { result ≡ ahead player recipe }
{
    player.job_level.saturating_sub(recipe.job_level)
}

fn is_able(player: Player, recipe: Recipe, n: u8) -> bool
    ensures { result ≡ able player recipe n }
{
    let row = action::attributes_of(n);
    row.level <= player.job_level
        && action::can_pay(player.cp, row.cp_cost)
        && (n != action::TRAINED_EYE || levels_ahead(player, recipe) >= TRAINED_EYE_LEVELS)
}

// The Traited action that takes the action's place, or the action itself.
fn twin(n: u8) -> u8
    ensures { result ≡ twin_of n }
{
    match n {
        action::BASIC_SYNTHESIS => action::BASIC_SYNTHESIS_TRAITED,
        action::CAREFUL_SYNTHESIS => action::CAREFUL_SYNTHESIS_TRAITED,
        action::GROUNDWORK => action::GROUNDWORK_TRAITED,
        action::DELICATE_SYNTHESIS => action::DELICATE_SYNTHESIS_TRAITED,
        _ => n,
    }
}

fn is_in_pool(player: Player, recipe: Recipe, n: u8) -> bool
    ensures { result ≡ in_pool player recipe n }
{
    let other = twin(n);
    is_able(player, recipe, n) && (other == n || !is_able(player, recipe, other))
}

pub fn determine_action_pool(player: Player, recipe: Recipe) -> u32
    ensures { result ≡ pool_of player recipe }
{
    let all = Bits { bits: ALL };
    all.keep(|n| is_in_pool(player, recipe, n)).bits
}
