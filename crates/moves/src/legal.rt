// The legal moves of a state, and whether one candidate is among them.
ghost use Rattle.std.specs.Prelude.{◌≡◌};
ghost use Rattle.action_set.specs.Sets.{keep_of};
ghost use Rattle.moves.specs.Moves.{ended, allows_of, moves_of};
ghost use Rattle.moves.specs.inner.Legal.{passed_of, legal_of};

use super::candidate::{allowed, allows};
use super::mode::Mode;
use action_set::bits::{self, Bits};
use craft_context::CraftContext;
use craft_state::{Craft, CraftState};
use step::Candidate;

// Progress is at its target, no step is left, or no durability.
pub fn has_ended(context: CraftContext, state: CraftState) -> bool
    ensures { result ≡ ended context state }
{
    (state.progress >= context.progress_target)
        | (state.step >= context.step_max)
        | (state.durability <= 0)
}

// Those of a set that pass the test.
fn keep_allowed(craft: Craft, mode: Mode, set: Bits) -> Bits
    ensures { result.bits ≡ keep_of (allows_of craft.context craft.state mode) set.bits }
{
    set.keep(|n| allows(craft, mode, n))
}

// One candidate of a state that has not ended, by its row: the pool has it, and it passes the test.
pub fn passes(craft: Craft, mode: Mode, candidate: Candidate) -> bool
    ensures { result ≡ passed_of craft.context craft.state mode candidate.n candidate.row }
{
    bits::holds(craft.context.action_pool.0, candidate.n) && allowed(craft, mode, candidate)
}

// One candidate of any state, by its row: by `has_moves` the same as looking it up in the moves.
pub fn is_legal(craft: Craft, mode: Mode, candidate: Candidate) -> bool
    ensures { result ≡ legal_of craft.context craft.state mode candidate.n candidate.row }
{
    !has_ended(craft.context, craft.state) && passes(craft, mode, candidate)
}

// The walk over the pool.
#[tactic(auto, unfolding(crate::specs::Moves::moves_by))]
pub fn legal_moves(craft: Craft, mode: Mode) -> Bits
    ensures { result.bits ≡ moves_of craft.context craft.state mode }
{
    if has_ended(craft.context, craft.state) {
        return Bits { bits: 0 };
    }
    let pool = Bits {
        bits: craft.context.action_pool.0,
    };
    keep_allowed(craft, mode, pool)
}
