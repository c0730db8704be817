// The rules of own.rt and strict.rt over sets, a second form for speed (docs/DECISIONS.md): each takes its own actions off where it does not hold.
ghost use Rattle.std.specs.Prelude.{◌≡◌, ◌<◌};
ghost use Rattle.laws.specs.Bits.{has};
ghost use Rattle.action.specs.Known.{actions};
ghost use Rattle.action.specs.Table.{attributes_of};
ghost use Rattle.action_set.specs.Sets.{keep_of};
ghost use Rattle.craft_state.specs.Inside.{DurabilityIn};
ghost use Rattle.moves.specs.Rules.{withstands, own_rule, strict_rule};
ghost use Rattle.moves.specs.inner.Sets.{unless_of, kind_rule};

use super::own::{
    IMMACULATE_MEND_ABOVE, MASTERS_MEND_FROM, OBSERVE_AND_TOUCH, QUICK_PART, can_withstand,
    is_unused, no_waste_not, on_observe,
};
use action_set::ActionSet;
use action_set::bits::Bits;
use craft_context::CraftContext;
use craft_state::{Buffs, CraftState};

// The actions of a rule.
const OPENERS: u32 = 1 << action::MUSCLE_MEMORY | 1 << action::REFLECT;

const PRUDENT: u32 = 1 << action::PRUDENT_SYNTHESIS | 1 << action::PRUDENT_TOUCH;

const WASTE_NOTS: u32 = 1 << action::WASTE_NOT | 1 << action::WASTE_NOT_II;

const LASTING: u32 = 1 << action::VENERATION | 1 << action::INNOVATION;

// Those with quality and no progress, with both, and with progress and no quality.
const PURE_QUALITY: u32 = 1 << action::BASIC_TOUCH
    | 1 << action::STANDARD_TOUCH
    | 1 << action::BYREGOTS_BLESSING
    | 1 << action::PRUDENT_TOUCH
    | 1 << action::ADVANCED_TOUCH
    | 1 << action::REFLECT
    | 1 << action::PREPARATORY_TOUCH
    | 1 << action::TRAINED_EYE
    | 1 << action::TRAINED_FINESSE
    | 1 << action::REFINED_TOUCH;

const BOTH: u32 = 1 << action::DELICATE_SYNTHESIS | 1 << action::DELICATE_SYNTHESIS_TRAITED;

pub const PURE_PROGRESS: u32 = 1 << action::BASIC_SYNTHESIS
    | 1 << action::BASIC_SYNTHESIS_TRAITED
    | 1 << action::MUSCLE_MEMORY
    | 1 << action::CAREFUL_SYNTHESIS
    | 1 << action::CAREFUL_SYNTHESIS_TRAITED
    | 1 << action::GROUNDWORK
    | 1 << action::GROUNDWORK_TRAITED
    | 1 << action::PRUDENT_SYNTHESIS;

pub const QUALITY: u32 = PURE_QUALITY | BOTH;

pub const PROGRESS: u32 = PURE_PROGRESS | BOTH;

// All but the one.
const NOT_ADVANCED_TOUCH: u32 = ActionSet::LIMIT - 1 - (1 << action::ADVANCED_TOUCH);

// Each alone.
pub const ONLY_TRAINED_EYE: u32 = 1 << action::TRAINED_EYE;

const ONLY_BYREGOTS_BLESSING: u32 = 1 << action::BYREGOTS_BLESSING;

const ONLY_TRAINED_FINESSE: u32 = 1 << action::TRAINED_FINESSE;

const ONLY_TRAINED_PERFECTION: u32 = 1 << action::TRAINED_PERFECTION;

const ONLY_OBSERVE: u32 = 1 << action::OBSERVE;

const ONLY_GROUNDWORK: u32 = 1 << action::GROUNDWORK;

const ONLY_GROUNDWORK_TRAITED: u32 = 1 << action::GROUNDWORK_TRAITED;

const ONLY_REFINED_TOUCH: u32 = 1 << action::REFINED_TOUCH;

const ONLY_MANIPULATION: u32 = 1 << action::MANIPULATION;

const ONLY_QUICK_INNOVATION: u32 = 1 << action::QUICK_INNOVATION;

const ONLY_IMMACULATE_MEND: u32 = 1 << action::IMMACULATE_MEND;

const ONLY_MASTERS_MEND: u32 = 1 << action::MASTERS_MEND;

const ONLY_GREAT_STRIDES: u32 = 1 << action::GREAT_STRIDES;

// What a rule over some actions leaves of a set: all where it holds, else the others.
#[tactic(auto, using(crate::specs::laws::Leaves::unless_held, crate::specs::laws::Leaves::unless_broken))]
pub fn unless(set: Bits, over: u32, holds: bool) -> Bits
    ensures { result.bits ≡ unless_of set.bits over holds }
{
    if holds {
        return set;
    }
    Bits {
        bits: set.bits - (set.bits & over),
    }
}

// What a set shares with another.
pub fn within(set: Bits, other: u32) -> Bits
    ensures { result.bits ≡ keep_of (has other) set.bits }
{
    Bits {
        bits: set.bits & other,
    }
}

// Durability is enough for the cost of an action.
#[tactic(auto, using(action::specs::laws::Bounds::rows_bounded))]
fn is_withstood(state: CraftState, n: u8) -> bool
    requires { n < actions }
    ensures { result ≡ withstands state (attributes_of n).durability_cost }
{
    can_withstand(state, action::attributes_of(n).durability_cost)
}

// The arms of `own_rule`, a line to each; the two Groundworks have a row each, and so a line each.
pub fn own_moves(context: CraftContext, state: CraftState, set: Bits) -> Bits
    ensures { result.bits ≡ keep_of (λ n. own_rule context state n (attributes_of n)) set.bits }
{
    let combo = state.previous_combo_action;
    let perfection = state.trained_perfection_active;
    let first = state.step == CraftState::STEP_LEAST;
    let quiet = state.buffs.inner_quiet;
    let groundwork = is_withstood(state, action::GROUNDWORK);
    let traited = is_withstood(state, action::GROUNDWORK_TRAITED);
    let quick = state.quick_innovation_available & (state.buffs.innovation == 0);
    let set = unless(set, OPENERS, first);
    let set = unless(set, ONLY_TRAINED_EYE, first & !context.is_expert);
    let set = unless(set, ONLY_BYREGOTS_BLESSING, quiet > 0);
    let set = unless(set, ONLY_TRAINED_FINESSE, quiet == Buffs::INNER_QUIET_MOST);
    let set = unless(set, ONLY_TRAINED_PERFECTION, is_unused(perfection));
    let set = unless(set, PRUDENT, no_waste_not(state));
    let set = unless(set, ONLY_OBSERVE, !on_observe(combo));
    let set = unless(set, ONLY_GROUNDWORK, groundwork);
    let set = unless(set, ONLY_GROUNDWORK_TRAITED, traited);
    let set = unless(set, ONLY_REFINED_TOUCH, step::on_basic_touch(combo));
    let set = unless(set, ONLY_MANIPULATION, context.use_manipulation);
    unless(set, ONLY_QUICK_INNOVATION, quick)
}

// The arms of `strict_rule`, a line to each.
pub fn strict_moves(context: CraftContext, state: CraftState, set: Bits) -> Bits
    requires { DurabilityIn state.durability context.durability_max }
    ensures { result.bits ≡ keep_of (strict_rule context state) set.bits }
{
    let off = context.durability_max - state.durability;
    let worn = off > IMMACULATE_MEND_ABOVE;
    let unmended = state.buffs.manipulation == 0;
    let calm = (state.buffs.veneration <= 1) & (state.buffs.innovation <= 1);
    let part = context.quality_target / QUICK_PART;
    let set = unless(set, ONLY_BYREGOTS_BLESSING, state.buffs.inner_quiet > 1);
    let set = unless(set, WASTE_NOTS, no_waste_not(state));
    let set = unless(set, ONLY_OBSERVE, state.cp >= OBSERVE_AND_TOUCH);
    let set = unless(set, ONLY_IMMACULATE_MEND, worn & unmended);
    let set = unless(set, ONLY_MASTERS_MEND, off >= MASTERS_MEND_FROM);
    let set = unless(set, ONLY_MANIPULATION, unmended);
    let set = unless(set, ONLY_GREAT_STRIDES, state.buffs.great_strides == 0);
    let set = unless(set, LASTING, calm);
    unless(set, ONLY_QUICK_INNOVATION, state.quality > part)
}

// `is_outside_memory`, `is_outside_veneration` and `may_follow`, a line to each.
pub fn kind_moves(context: CraftContext, state: CraftState, set: Bits) -> Bits
    ensures { result.bits ≡ keep_of (λ n. kind_rule context state n (attributes_of n)) set.bits }
{
    let combo = state.previous_combo_action;
    let memory = (context.recipe_job_level == context.player_job_level)
        & (state.buffs.muscle_memory > 0);
    let set = unless(set, QUALITY, !memory);
    let set = unless(set, PURE_QUALITY, state.buffs.veneration == 0);
    unless(set, NOT_ADVANCED_TOUCH, !on_observe(combo))
}
