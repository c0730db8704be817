// The 31 actions of action.rs by number: attributes, prices, gains, waits and text.

#![tactic(auto)]

mod gain;
mod known;
mod names;
mod price;
mod table;
mod texts;
mod waits;
mod wear;

pub use gain::{calc_progress_increase, calc_quality_increase};
pub use known::{check_action, check_list};
pub use names::from_name;
pub use price::{Combo, calc_cp_cost, can_pay, charged};
pub use table::{Attributes, attributes_of};
pub use texts::{TEXT_MOST, Text, put_text};
pub use waits::wait;
pub use wear::calc_durability_cost;

// The actions by name: the numbers of the table. An action is its number, and no enum: entries take any number, a list is lent bytes, a set counts by it.
pub const BASIC_SYNTHESIS: u8 = 0;

pub const BASIC_TOUCH: u8 = 1;

pub const MASTERS_MEND: u8 = 2;

pub const OBSERVE: u8 = 3;

pub const WASTE_NOT: u8 = 4;

pub const VENERATION: u8 = 5;

pub const STANDARD_TOUCH: u8 = 6;

pub const GREAT_STRIDES: u8 = 7;

pub const INNOVATION: u8 = 8;

pub const BASIC_SYNTHESIS_TRAITED: u8 = 9;

pub const WASTE_NOT_II: u8 = 10;

pub const BYREGOTS_BLESSING: u8 = 11;

pub const MUSCLE_MEMORY: u8 = 12;

pub const CAREFUL_SYNTHESIS: u8 = 13;

pub const MANIPULATION: u8 = 14;

pub const PRUDENT_TOUCH: u8 = 15;

pub const ADVANCED_TOUCH: u8 = 16;

pub const REFLECT: u8 = 17;

pub const PREPARATORY_TOUCH: u8 = 18;

pub const GROUNDWORK: u8 = 19;

pub const DELICATE_SYNTHESIS: u8 = 20;

pub const TRAINED_EYE: u8 = 21;

pub const CAREFUL_SYNTHESIS_TRAITED: u8 = 22;

pub const GROUNDWORK_TRAITED: u8 = 23;

pub const PRUDENT_SYNTHESIS: u8 = 24;

pub const TRAINED_FINESSE: u8 = 25;

pub const REFINED_TOUCH: u8 = 26;

pub const DELICATE_SYNTHESIS_TRAITED: u8 = 27;

pub const QUICK_INNOVATION: u8 = 28;

pub const IMMACULATE_MEND: u8 = 29;

pub const TRAINED_PERFECTION: u8 = 30;

// How many there are.
pub const ACTIONS: u8 = 31;

// The dearest price: no action's is above it.
pub const DEAREST: u32 = 250;
