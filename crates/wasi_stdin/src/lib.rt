//! The standard input that guests share: one request, one reader behind it, and what was read.
#![tactic(auto)]

mod answer;
mod delivery;
mod laws;
mod mode;
mod stdin_core;
mod wait;

pub use answer::{Answer, Outcome, PolledRead};
pub use delivery::deliver_from;
pub use laws::{every_rule_keeps_the_invariant, faults_are_told_once, requests_only_grow};
pub use mode::Mode;
pub use stdin_core::{MOST_BYTES, StdinCore};
pub use wait::Wait;
