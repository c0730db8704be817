// The search of a craft, on records, logarithms, draws and room that a host lends.
ghost use Rattle.std.specs.Prelude.{◌≡◌, [], ◌∷◌};
ghost use Rattle.context_line.specs.inner.Fields.{listed};
ghost use Rattle.crafty_c.specs.Searches.{stopped_of, outside_of, found_at, told_of, TellsSearched};
ghost use Rattle.crafty_c.specs.inner.Searches.{FindsIn};

use super::answer::refused;
use super::numbers::{CraftyState, state_numbers};
use context_line::Fields;
use craft_context::CraftContext;
use craft_state::fresh;
use refusal::Refusal;
use search::{Found, Progress, SearchOptions, search};
use tree::Node;

// What `crafty_search` answers: beside the number and value, what was done, the path's length, its last node, and the state there.
#[repr(C)]
#[derive(Clone, Copy)]
pub struct CraftyFound {
    pub number: u32,
    pub iterations: u32,
    pub value: usize,
    pub records: usize,
    pub draws: usize,
    pub path: usize,
    pub node: usize,
    pub state: CraftyState,
}

// A refusal tells no path.
fn stopped(x: Refusal, progress: Progress, state: CraftyState) -> CraftyFound
    ensures { result ≡ stopped_of x progress state }
{
    let answer = refused(x);
    CraftyFound {
        number: answer.number,
        iterations: progress.iterations,
        value: answer.value,
        records: progress.records,
        draws: progress.draws,
        path: 0,
        node: 0,
        state,
    }
}

// No context, so no start.
fn outside(x: Refusal) -> CraftyFound
    ensures { result ≡ outside_of x }
{
    stopped(x, Progress::default(), CraftyState::default())
}

fn found_at(progress: Progress, found: Found) -> CraftyFound
    ensures { result ≡ found_at progress found }
{
    CraftyFound {
        number: 0,
        iterations: progress.iterations,
        value: 0,
        records: progress.records,
        draws: progress.draws,
        path: found.path,
        node: found.last,
        state: state_numbers(found.state),
    }
}

fn told(
    context: CraftContext,
    searched: Result<(Progress, Found), (Refusal, Progress)>,
) -> CraftyFound
    ensures { result ≡ told_of context searched }
{
    match searched {
        Ok((progress, found)) => found_at(progress, found),
        Err((x, progress)) => stopped(x, progress, state_numbers(fresh(context))),
    }
}

fn found_in(
    nodes: &mut [Node],
    logs: &[f32],
    draws: &[u8],
    out: &mut [u8],
    context: CraftContext,
    options: SearchOptions,
) -> CraftyFound
    ensures { FindsIn context options logs.now draws.now nodes.old out.old result nodes.new out.new }
{
    told(context, search(nodes, logs, draws, out, context, options))
}

// In a context given by the numbers of its fields.
fn search_in(
    nodes: &mut [Node],
    logs: &[f32],
    draws: &[u8],
    out: &mut [u8],
    numbers: Fields,
    options: SearchOptions,
) -> CraftyFound
    ensures { TellsSearched (listed numbers) options logs.now draws.now nodes.old out.old result nodes.new out.new }
{
    match context_line::from_fields(numbers) {
        Ok(context) => found_in(nodes, logs, draws, out, context, options),
        Err(x) => outside(x),
    }
}

// The C interface: fifteen numbers, which `Fields` names, and four of `SearchOptions`.
#[unsafe(no_mangle)]
pub extern "C" fn crafty_search(
    nodes: &mut [Node],
    logs: &[f32],
    draws: &[u8],
    out: &mut [u8],
    player_job_level: u32,
    recipe_job_level: u32,
    base_progress_factor: u32,
    base_quality_factor: u32,
    step_max: u32,
    progress_target: u32,
    starting_quality: u32,
    quality_target: u32,
    durability_max: u32,
    cp_max: u32,
    is_expert: u32,
    action_pool: u32,
    player_is_specialist: u32,
    use_manipulation: u32,
    use_delineation: u32,
    iterations: u32,
    score_storage_threshold: f32,
    max_score_weighting_constant: f32,
    exploration_constant: f32,
) -> CraftyFound
    ensures { TellsSearched (player_job_level ∷ recipe_job_level ∷ base_progress_factor ∷ base_quality_factor ∷ step_max ∷ progress_target ∷ starting_quality ∷ quality_target ∷ durability_max ∷ cp_max ∷ is_expert ∷ action_pool ∷ player_is_specialist ∷ use_manipulation ∷ use_delineation ∷ []) (record { iterations = iterations; score_storage_threshold = score_storage_threshold; max_score_weighting_constant = max_score_weighting_constant; exploration_constant = exploration_constant }) logs.now draws.now nodes.old out.old result nodes.new out.new }
{
    let numbers = Fields {
        player_job_level,
        recipe_job_level,
        base_progress_factor,
        base_quality_factor,
        step_max,
        progress_target,
        starting_quality,
        quality_target,
        durability_max,
        cp_max,
        is_expert,
        action_pool,
        player_is_specialist,
        use_manipulation,
        use_delineation,
    };
    let options = SearchOptions {
        iterations,
        score_storage_threshold,
        max_score_weighting_constant,
        exploration_constant,
    };
    search_in(nodes, logs, draws, out, numbers, options)
}
