// The text of a plain replay: a line for each state on the way, and a last line with its result.

#![tactic(auto)]

mod last;
mod rows;
mod whole;

pub use whole::{TRANSCRIPT_MOST, put_transcript};
