// What the amounts of a row decide, by a walk over a set: the price, and in strict mode what progress comes to.
ghost use Rattle.std.specs.Prelude.{◌≡◌, ◌≤◌, ◌<◌};
ghost use Rattle.action.specs.Known.{actions};
ghost use Rattle.action.specs.Limits.{progress_most};
ghost use Rattle.action.specs.Price.{affordable};
ghost use Rattle.action.specs.Table.{attributes_of};
ghost use Rattle.action_set.specs.Sets.{keep_of};
ghost use Rattle.moves.specs.Rules.{may_progress};
ghost use Rattle.moves.specs.inner.Sets.{amount_of, finishes_with, finishing_of};

use super::sets::{PURE_PROGRESS, unless};
use super::strict::QUALITY_PART;
use action_set::bits::Bits;
use craft_context::CraftContext;
use craft_state::{Craft, CraftState};

// Points for the dearest are enough for all.
#[inline(always)]
pub fn keep_payable(points: u32, set: Bits) -> Bits
    ensures { result.bits ≡ keep_of (λ n. affordable points (attributes_of n).cp_cost) set.bits }
{
    if points >= action::DEAREST {
        return set;
    }
    set.keep(|n| action::can_pay(points, action::attributes_of(n).cp_cost))
}

#[tactic(auto, using(action::specs::laws::Bounds::rows_bounded, crate::specs::laws::Amounts::amount_at_most))]
fn efficiency_of(n: u8) -> u32
    requires { n < actions }
    ensures { (result ≡ amount_of (attributes_of n).progress_efficiency) × (result ≤ progress_most) }
{
    let progress = action::attributes_of(n).progress_efficiency;
    progress.unwrap_or(0)
}

// Progress reaches its target.
fn finishes(craft: Craft, n: u8) -> bool
    requires { n < actions }
    ensures { result ≡ finishes_with craft.context craft.state (amount_of (attributes_of n).progress_efficiency) }
{
    let gain = action::calc_progress_increase(
        craft.context.base_progress_factor,
        efficiency_of(n),
        craft.state.buffs.veneration,
        craft.state.buffs.muscle_memory,
    );
    craft.state.progress + gain >= craft.context.progress_target
}

pub fn keep_finishing(craft: Craft, set: Bits) -> Bits
    ensures { result.bits ≡ keep_of (λ n. finishes_with craft.context craft.state (amount_of (attributes_of n).progress_efficiency)) set.bits }
{
    set.keep(|n| finishes(craft, n))
}

// `may_progress`: of those that finish, and of those that do not.
pub fn progress_moves(context: CraftContext, state: CraftState, set: Bits, finish: Bits) -> Bits
    requires { finish.bits ≡ finishing_of context state set.bits }
    ensures { result.bits ≡ keep_of (λ n. may_progress context state (attributes_of n).progress_efficiency (attributes_of n).quality_efficiency) set.bits }
{
    let part = context.quality_target / QUALITY_PART;
    let pure = Bits {
        bits: PURE_PROGRESS,
    };
    let set = unless(set, finish.bits, state.quality >= part);
    let work = unless(pure, finish.bits, false);
    unless(set, work.bits, state.buffs.innovation == 0)
}
