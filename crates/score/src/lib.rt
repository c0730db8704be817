// The score of a craft in a state, and the state's result.

#![tactic(auto)]

mod result;
mod scoring;

pub use result::{CraftResult, check_result, judge};
pub use scoring::score;
