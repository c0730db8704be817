// What a search does with the lent draws: a draw of a set, and the rollout from a state on.

#![tactic(auto)]

mod draws;
mod rollout;

pub use draws::draw;
pub use rollout::roll_out;
