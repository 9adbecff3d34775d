//! The nodes of a tree of files in memory: files, directories and links by number, and every
//! change of them, with its limits and refusals. No paths: a call takes a directory's number and a
//! name.
#![tactic(auto)]

mod at;
mod changes;
mod content;
mod edits;
mod laws;
mod names;
mod node;
mod nodes;
mod rows;
mod stats;
mod store_error;
#[cfg(test)]
mod tests;

pub use at::At;
pub use content::{Content, read_bytes, write_bytes};
pub use laws::{below_is_told, kinds_stay};
pub use names::Names;
pub use node::{Body, Kind, Node, Times};
pub use nodes::Nodes;
pub use stats::{Entry, Stat};
pub use store_error::StoreError;
