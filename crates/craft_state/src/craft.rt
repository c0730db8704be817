// A state in its context, both inside their limits: functions that rest on that take the two as one value. A rule that holds of any state takes the two
// themselves, and so do the parts of a step, between which a state is not inside.
ghost use Rattle.std.proofs.Props.{props};
ghost use Rattle.craft_state.specs.Inside.{CraftIn};

use super::state::CraftState;
use craft_context::CraftContext;

#[derive(Clone, Copy)]
pub struct Craft {
    pub context: CraftContext,
    pub state: CraftState,
    ghost inside: { CraftIn context state } by { Prim.hlevel props },
}
