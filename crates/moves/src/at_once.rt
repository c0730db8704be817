// The moves of a state at once, equal to the walk over candidates: what each rule leaves of the pool, and last a walk for the price.
ghost use Rattle.std.specs.Prelude.{◌≡◌};
ghost use Rattle.action.specs.Table.{attributes_of};
ghost use Rattle.action_set.specs.Sets.{keep_of};
ghost use Rattle.moves.specs.Moves.{moves_of};
ghost use Rattle.moves.specs.inner.Sets.{strict_beyond};

use super::amounts::{keep_finishing, keep_payable, progress_moves};
use super::legal::has_ended;
use super::mode::Mode;
use super::sets::{
    ONLY_TRAINED_EYE, PROGRESS, QUALITY, kind_moves, own_moves, strict_moves, unless, within,
};
use super::strict::is_eye_alone;
use action_set::bits::Bits;
use craft_state::Craft;

// The rules of `strictly`, in another order: what strict mode leaves of what the own rules left.
#[inline(always)]
fn strict_part(craft: Craft, set: Bits) -> Bits
    ensures { result.bits ≡ keep_of (λ n. strict_beyond craft.context craft.state n (attributes_of n)) set.bits }
{
    if is_eye_alone(craft.context, craft.state) {
        return within(set, ONLY_TRAINED_EYE);
    }
    let strict = strict_moves(craft.context, craft.state, set);
    let kind = kind_moves(craft.context, craft.state, strict);
    let finish = keep_finishing(craft, within(kind, PROGRESS));
    progress_moves(craft.context, craft.state, kind, finish)
}

// The rules of `allowed`, in another order: the price, which is a walk, comes last. One piece with each caller, as `step::execute`.
#[inline(always)]
pub fn moves_at_once(craft: Craft, mode: Mode) -> Bits
    ensures { result.bits ≡ moves_of craft.context craft.state mode }
{
    if has_ended(craft.context, craft.state) {
        return Bits { bits: 0 };
    }
    let pool = Bits {
        bits: craft.context.action_pool.0,
    };
    let set = unless(
        pool,
        QUALITY,
        craft.state.quality < craft.context.quality_target,
    );
    let own = own_moves(craft.context, craft.state, set);
    if mode.strict {
        return keep_payable(craft.state.cp, strict_part(craft, own));
    }
    keep_payable(craft.state.cp, own)
}
