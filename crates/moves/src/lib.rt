// Legal moves, in plain and in strict mode.

#![tactic(auto)]

mod amounts;
mod at_once;
mod candidate;
mod legal;
mod mode;
mod own;
mod sets;
mod strict;

pub use at_once::moves_at_once;
pub use legal::{has_ended, is_legal, legal_moves, passes};
pub use mode::{Mode, mode_of};
