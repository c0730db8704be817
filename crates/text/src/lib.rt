// Text as bytes in lent room: appends, decimals, hexadecimals. Every writer has the contract `Put` of specs/Over.antt.

#![tactic(auto)]

mod append;
mod decimal;
mod hex;

pub use append::{put, put_byte};
pub use decimal::{Decimal, put_number};
pub use hex::put_hex;
