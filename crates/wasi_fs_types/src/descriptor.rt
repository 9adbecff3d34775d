use wasi_clocks::{Datetime, Instant};

/// What a descriptor or an entry names.
#[derive(Clone, Copy, Debug, PartialEq, Eq, Drop)]
pub enum DescriptorType {
    Unknown,
    BlockDevice,
    CharacterDevice,
    Directory,
    SymbolicLink,
    RegularFile,
}

/// What is known of a node.
#[derive(Clone, Copy, Debug, PartialEq, Eq, Drop)]
pub struct DescriptorStat {
    pub type_: DescriptorType,
    /// How many entries name the node; 1 for a root.
    pub link_count: u64,
    /// The length in bytes of a file, or of a link's text; 0 for a directory.
    pub size: u64,
    pub data_access_timestamp: Option<Datetime>,
    pub data_modification_timestamp: Option<Datetime>,
    pub status_change_timestamp: Option<Datetime>,
}

/// A number of a node that no other node has: the node's number in its tree, and the tree's.
#[derive(Clone, Copy, Debug, PartialEq, Eq, Drop)]
pub struct MetadataHashValue {
    pub lower: u64,
    pub upper: u64,
}

/// How a file will be used.
#[derive(Clone, Copy, Debug, PartialEq, Eq, Drop)]
pub enum Advice {
    Normal,
    Sequential,
    Random,
    WillNeed,
    DontNeed,
    NoReuse,
}

/// What a guest may do below a directory that it was given.
#[derive(Clone, Copy, Debug, PartialEq, Eq, Drop)]
pub enum FsPerms {
    ReadOnly,
    ReadWrite,
}

/// What becomes of one time of a node.
#[derive(Clone, Copy, Debug, PartialEq, Eq, Drop)]
pub enum NewTimestamp {
    NoChange,
    Now,
    Timestamp(Instant),
}
