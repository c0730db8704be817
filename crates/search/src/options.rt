// What a search is asked for: its options, and the table of logarithms.
ghost use Rattle.std.specs.Prelude.{◌≡◌, ◌≤◌, true, length};
ghost use Rattle.std.specs.Float.Ieee.{to_unsigned};
ghost use Rattle.laws.specs.Floats.{float};
ghost use Rattle.refusal.specs.Judge.{checked_of};
ghost use Rattle.ucb1.specs.Fair.{between};
ghost use Rattle.tree.specs.Sound.{is_count};
ghost use Rattle.search.specs.Options.{iterations_most, is_log, are_logs, are_options, search_test};
ghost use Rattle.search.specs.Select.{ln_of};

use refusal::Refusal;
use std::num;

#[derive(Clone, Copy, Debug, PartialEq)]
pub struct SearchOptions {
    pub iterations: u32,
    // From this score on the whole path of a finished rollout is stored.
    pub score_storage_threshold: f32,
    // How much a record's greatest score counts against its average.
    pub max_score_weighting_constant: f32,
    pub exploration_constant: f32,
}

impl SearchOptions {
    pub const ITERATIONS_MOST: u32 = 4096;

    pub const WEIGHT_MOST: f32 = 1.0;

    pub const EXPLORATION_MOST: f32 = 16.0;

    pub const LOGARITHM_MOST: f32 = 17.0;
}

// One for each number of visits that a record may have.
const LOGARITHMS: usize = SearchOptions::ITERATIONS_MOST as usize;

fn is_log(ln: f32) -> bool
    ensures { result ≡ is_log ln }
{
    (0.0 <= ln) & (ln <= SearchOptions::LOGARITHM_MOST)
}

// More than these are not read.
fn are_logs(logs: &[f32]) -> bool
    ensures { result ≡ are_logs logs.now }
{
    if logs.len() < LOGARITHMS {
        return false;
    }
    for v in 0..LOGARITHMS {
        if !is_log(logs[v]) {
            return false;
        }
    }
    true
}

// Of numbers a NaN alone is not equal to itself.
fn are_options(options: SearchOptions, step_max: u8) -> bool
    ensures { result ≡ are_options options step_max }
{
    let threshold = options.score_storage_threshold;
    let w = options.max_score_weighting_constant;
    let c = options.exploration_constant;
    (options.iterations <= SearchOptions::ITERATIONS_MOST)
        & (threshold == threshold)
        & ((0.0 <= w) & (w <= SearchOptions::WEIGHT_MOST))
        & ((0.0 <= c) & (c <= SearchOptions::EXPLORATION_MOST))
        & (0 < step_max)
}

// Refusal 21.
pub fn check_search(logs: &[f32], options: SearchOptions, step_max: u8) -> Result<(), Refusal>
    ensures { result ≡ checked_of (search_test logs.now options step_max) }
{
    if are_options(options, step_max) && are_logs(logs) {
        return Ok(());
    }
    Err(Refusal::BadSearch)
}

// The logarithm of so many visits; of none, that of one, which no child is rated by.
pub fn ln_at(logs: &[f32], visits: f32) -> f32
    requires { (is_count visits ≡ true) × (to_unsigned 64 visits ≤ iterations_most) × (iterations_most ≤ length logs.now) }
    ensures { result ≡ ln_of logs.now visits }
{
    let v = num::truncating_f32_to_u64(visits) as usize;
    if v == 0 {
        return logs[0];
    }
    logs[v - 1]
}
