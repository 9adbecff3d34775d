//! Preview 0, over an object that has the calls of preview 1.
#![tactic(auto)]

mod poll;
mod slot;
mod unstable;

pub use unstable::Unstable;

#[cfg(test)]
mod tests;
