// The engine for hosts in C and Rust: a static library of functions on numbers, bytes and records, which include/crafty.h declares.
// Every function takes any of these, and refuses by a fixed number; a refusal leaves what was lent as it was, but for the records of the iterations that a
// search did before it. Kinds and refusals are numbers, flags and fifteen numbers stand apart and records are flat, as C has them.

#![tactic(auto, unfolding(refusal::specs::Judge::judged))]

mod answer;
mod numbers;
mod replays;
mod searches;
mod texts;
mod trees;

pub use answer::CraftyAnswer;
pub use numbers::CraftyState;
pub use replays::crafty_replay;
pub use searches::{CraftyFound, crafty_search};
pub use texts::{
    crafty_macro_time, crafty_print, crafty_read_list, crafty_replay_text, crafty_write_list,
};
pub use trees::{
    CraftySolution, crafty_tree_backpropagate, crafty_tree_children, crafty_tree_insert,
    crafty_tree_new, crafty_tree_solution,
};
