// A list of actions, replayed from the start of a craft.

#![tactic(auto)]

mod replay;

pub use replay::{Replay, execute_actions};
