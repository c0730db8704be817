// One action on a state, as a chain of small functions in document 01's order.
// Each part changes fields of a copy: with `CraftState { cp, ..state }`, which moves the buffs as one number, a replay took 8 % longer.

#![tactic(auto)]

mod candidate;
mod combos;
mod durability;
mod effects;
mod progress;
mod quality;
mod whole;

pub use candidate::Candidate;
pub use durability::wears;
pub use quality::on_basic_touch;
pub use whole::execute;
