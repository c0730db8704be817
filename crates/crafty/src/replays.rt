// The replay of a list of actions from the start of a craft.
ghost use Rattle.crafty.specs.Replays.{Replays};

use craft_context::CraftContext;
use moves::Mode;
use refusal::Refusal;
use simulator::Replay;

// Where the replay stopped. The whole list is tested, also past that place.
pub fn replay(context: CraftContext, mode: Mode, list: &[u8]) -> Result<Replay, Refusal>
    ensures { Replays context mode list.now result }
{
    context.check()?;
    action::check_list(list)?;
    Ok(simulator::execute_actions(context, mode, list))
}
