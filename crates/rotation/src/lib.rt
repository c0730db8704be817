// A list of actions as text, read and written, and its macro time.

#![tactic(auto)]

mod gaps;
mod lines;
mod reading;
mod timing;
mod words;

pub use lines::{measure, put_list};
pub use reading::{count, put_words, read_words};
pub use timing::seconds;
