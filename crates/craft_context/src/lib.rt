// The context of a craft: what stays as it is while the craft goes on, its limits, and how it is built.

#![tactic(auto, unfolding(refusal::specs::Judge::judged))]

mod build;
mod context;
mod factor;
pub mod place;
mod pool;
mod sheet;

pub use context::{CraftContext, lasts, within};
pub use sheet::{CraftOptions, Player, Recipe};
