//! The words of a script's line, and the numbers among them.
#![tactic(auto)]

mod numbers;
mod parts;

pub use numbers::{parse_between, parse_number, parse_u128};
pub use parts::{Parts, is, is_done, only};
