// A context as text: one line of fifteen numbers. And a context from fifteen numbers.

#![tactic(auto, unfolding(refusal::specs::Judge::judged))]

mod fields;
mod line;
mod runs;

pub use fields::{Fields, from_fields};
pub use line::{line_end, read};
