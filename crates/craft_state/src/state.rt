// The state, and the state in which a craft starts.
ghost use Rattle.std.specs.Prelude.{◌≡◌};
ghost use Rattle.craft_state.specs.Start.{start_of, renewed_of, Start};

use super::buffs::Buffs;
use action::Combo;
use craft_context::CraftContext;
use refusal::Refusal;

// Trained perfection is used once in a craft.
#[derive(Clone, Copy, Debug, PartialEq, Eq)]
pub enum Perfection {
    Unused,
    Active,
    Spent,
}

#[derive(Clone, Copy, Debug, PartialEq, Eq)]
pub struct CraftState {
    pub step: u8,
    pub progress: u32,
    pub quality: u32,
    pub durability: i8,
    pub cp: u32,
    pub previous_combo_action: Option<Combo>,
    pub quick_innovation_available: bool,
    pub trained_perfection_active: Perfection,
    // The action that led here, which may be any number.
    pub action: Option<u8>,
    pub buffs: Buffs,
}

// Where a craft starts.
#[tactic(auto, unfolding(crate::specs::Start::start_of))]
pub fn fresh(context: CraftContext) -> CraftState
    ensures { result ≡ start_of context }
{
    CraftState {
        step: CraftState::STEP_LEAST,
        progress: 0,
        quality: context.starting_quality,
        durability: context.durability_max,
        cp: context.cp_max,
        previous_combo_action: None,
        quick_innovation_available: context.use_delineation,
        trained_perfection_active: Perfection::Unused,
        buffs: Buffs::new(),
        action: None,
    }
}

// The state with the fields that are enums renewed. The buffs go one by one: a copy of them all would wait for the bytes just written.
#[tactic(auto, unfolding(crate::specs::Start::renewed_of))]
pub fn renewed(
    state: CraftState,
    combo: Option<Combo>,
    perfection: Perfection,
    last: Option<u8>,
) -> CraftState
    ensures { result ≡ renewed_of state combo perfection last }
{
    CraftState {
        previous_combo_action: combo,
        trained_perfection_active: perfection,
        buffs: Buffs { ..state.buffs },
        action: last,
        ..state
    }
}

impl CraftState {
    pub const STEP_LEAST: u8 = 1;

    // Of progress and quality: up to here a whole number is exact in f32.
    pub const AMOUNT_MOST: u32 = 16777216;

    pub const DURABILITY_LEAST: i8 = -19;

    pub fn new(context: CraftContext) -> Result<CraftState, Refusal>
        ensures { Start context result }
    {
        context.check()?;
        Ok(fresh(context))
    }
}
