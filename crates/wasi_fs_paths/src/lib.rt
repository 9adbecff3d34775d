//! Paths of the tree: their components, and what a path leads to from a directory. No call of
//! this crate takes memory.
#![tactic(auto)]

mod components;
mod place;
#[cfg(test)]
mod tests;
mod walk;

pub use components::{has_trailing_slash, next_component};
pub use place::{Place, Wish};
pub use walk::{find, resolve};
