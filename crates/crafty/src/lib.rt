// The public face of the engine. Every entry takes any numbers and bytes, and refuses what is outside the limits by a fixed number.
// The entries over sets and contexts are the methods of `ActionSet` and `CraftContext`; a craft starts by `CraftState::new`; those over a tree are the
// crate `tree`'s, and the search is the crate `search`'s.

#![tactic(auto, unfolding(refusal::specs::Judge::judged))]

mod actions;
mod lists;
mod program;
mod replays;
mod room;
mod states;

pub use action::{Attributes, Combo};
pub use action_set::ActionSet;
pub use actions::{attributes, from_name, label, macro_text, name, price, wait};
pub use craft_context::{CraftContext, CraftOptions, Player, Recipe};
pub use craft_state::{Buffs, CraftState, Perfection};
pub use lists::{macro_time, read_list, write_list};
pub use moves::Mode;
pub use program::{replay_output, replay_text};
pub use refusal::{Refusal, Report};
pub use replays::replay;
pub use score::CraftResult;
pub use search::{Found, Progress, SearchOptions, search};
pub use simulator::Replay;
pub use states::{display, moves, result, score, step};
pub use tree::{Node, backpropagate, children, insert, plant, record_at, solution};
