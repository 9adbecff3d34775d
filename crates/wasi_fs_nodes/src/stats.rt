use crate::node::{Kind, Times};
use wasi_base::Text;

/// What is told of a node.
#[derive(Clone, Copy, PartialEq, Eq, Debug, Drop)]
pub struct Stat {
    pub kind: Kind,
    /// How many entries name it, 1 for the root.
    pub links: u64,
    /// In bytes, 0 for a directory.
    pub size: u64,
    pub times: Times,
}

/// A name in a directory, with its node.
#[derive(Drop)]
pub struct Entry {
    pub name: Text,
    pub node: u64,
}
