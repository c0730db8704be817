// The tree of tree.rs and simulator.rs: a lent slice of records and a count of those used, and its entries.

#![tactic(auto, unfolding(refusal::specs::Judge::judged))]

mod back;
mod best;
mod climb;
mod descend;
mod few;
mod grow;
mod listing;
mod node;
mod paths;
mod records;
mod scan;
mod soundness;

pub use back::backpropagate;
pub use best::{Best, is_child, pick};
pub use climb::{Survey, survey_path, touch_path};
pub use descend::{best_child, put_solution, solution_len};
pub use grow::{insert, plant, record_at};
pub use listing::{count_children, put_children};
pub use node::{Node, check_score, is_full, touched};
pub use paths::{children, solution};
pub use records::{node_at, put_node};
pub use scan::is_sound;
pub use soundness::is_sound_at;
