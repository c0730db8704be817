// The state of a craft: its fields, their ranges, where it starts, and its line. The context is a value of its own beside it.

#![tactic(auto, unfolding(refusal::specs::Judge::judged))]

mod buffs;
mod craft;
mod display;
mod ranges;
mod state;

pub use buffs::Buffs;
pub use craft::Craft;
pub use display::{LINE_MOST, put_line};
pub use state::{CraftState, Perfection, fresh, renewed};
