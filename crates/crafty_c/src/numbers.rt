// A state, and a replay's report, as numbers, in the order that include/crafty.h gives.
ghost use Rattle.std.specs.Prelude.{◌≡◌, ◌≤◌, length};
ghost use Rattle.action.specs.Price.{combo_number};
ghost use Rattle.craft_state.specs.Limits.{step_most};
ghost use Rattle.score.specs.Result.{verdict_of, ScoreIsNumber};
ghost use Rattle.text.specs.Over.{over};
ghost use Rattle.crafty_c.specs.Numbers.{score_number, state_of, replay_numbers};

use action::{ACTIONS, Combo};
use craft_state::CraftState;
use score::CraftResult;
use simulator::Replay;

// How many there are.
pub const NUMBERS: usize = 21;

// A state by its numbers; all are 0 where there is no context, and so no start.
#[repr(C)]
#[derive(Clone, Copy, Default)]
pub struct CraftyState {
    pub step: u32,
    pub progress: u32,
    pub quality: u32,
    pub durability: u32,
    pub cp: u32,
    pub combo: u32,
    pub quick_innovation: u32,
    pub trained_perfection: u32,
    pub inner_quiet: u32,
    pub waste_not: u32,
    pub waste_not_ii: u32,
    pub manipulation: u32,
    pub great_strides: u32,
    pub innovation: u32,
    pub veneration: u32,
    pub muscle_memory: u32,
    pub last_action: u32,
}

// A `match`, since one case holds a score: the enum has no numbers to cast.
fn verdict(res: CraftResult) -> u32
    ensures { result ≡ verdict_of res }
{
    match res {
        CraftResult::Finished(_) => 0,
        CraftResult::DurabilityFailure => 1,
        CraftResult::MaxStepsFailure => 2,
        CraftResult::InvalidActionFailure => 3,
        CraftResult::Continuing => 4,
    }
}

// The bits of the score, 0 where there is none. A match, since an enum with a float inside has no numbers.
fn score_bits(res: CraftResult) -> u32
    requires { ScoreIsNumber res }
    ensures { result ≡ score_number res }
{
    match res {
        CraftResult::Finished(score) => score.to_bits(),
        _ => 0,
    }
}

// No combo is 0, and the others follow in their order: a number of the C interface, and of no other crate.
fn combo_number(combo: Option<Combo>) -> u32
    ensures { result ≡ combo_number combo }
{
    combo.map_or(0, |combo| combo as u32 + 1)
}

// The durability in two's complement, and for no last action one past the actions.
pub fn state_numbers(state: CraftState) -> CraftyState
    ensures { result ≡ state_of state }
{
    let buffs = state.buffs;
    CraftyState {
        step: u32::from(state.step),
        progress: state.progress,
        quality: state.quality,
        durability: i32::from(state.durability).cast_unsigned(),
        cp: state.cp,
        combo: combo_number(state.previous_combo_action),
        quick_innovation: u32::from(state.quick_innovation_available),
        trained_perfection: state.trained_perfection_active as u32,
        inner_quiet: u32::from(buffs.inner_quiet),
        waste_not: u32::from(buffs.waste_not),
        waste_not_ii: u32::from(buffs.waste_not_ii),
        manipulation: u32::from(buffs.manipulation),
        great_strides: u32::from(buffs.great_strides),
        innovation: u32::from(buffs.innovation),
        veneration: u32::from(buffs.veneration),
        muscle_memory: u32::from(buffs.muscle_memory),
        last_action: u32::from(state.action.unwrap_or(ACTIONS)),
    }
}

pub fn numbers(report: Replay) -> [u32; NUMBERS]
    requires { ScoreIsNumber report.result × (report.executed ≤ step_most) }
    ensures { result ≡ replay_numbers report }
{
    let state = state_numbers(report.state);
    [
        verdict(report.result),
        score_bits(report.result),
        report.executed as u32,
        report.moves.0,
        state.step,
        state.progress,
        state.quality,
        state.durability,
        state.cp,
        state.combo,
        state.quick_innovation,
        state.trained_perfection,
        state.inner_quiet,
        state.waste_not,
        state.waste_not_ii,
        state.manipulation,
        state.great_strides,
        state.innovation,
        state.veneration,
        state.muscle_memory,
        state.last_action,
    ]
}

// Stores the numbers from the start of out on.
pub fn put_numbers(out: &mut [u32], numbers: &[u32])
    requires { length numbers.now ≤ length out.old }
    ensures { out.new ≡ over out.old 0 numbers.now }
{
    out[..numbers.len()].copy_from_slice(numbers);
}
