// `search_oneshot` of simulator.rs, on draws and logarithms that the caller lends.

#![tactic(auto)]

mod entry;
mod grow;
mod iterate;
mod links;
mod options;
mod plan;
mod select;
mod store;

pub use entry::{Found, Progress, search};
pub use options::SearchOptions;
