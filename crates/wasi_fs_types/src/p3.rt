//! The types of WASI 0.3.

mod flags;

use crate::CwdText;
pub use flags::{DescriptorFlags, OpenFlags, PathFlags};
use wasi_clocks::Instant;

/// Why a call of the filesystem is refused.
#[derive(Clone, Copy, Debug, PartialEq, Eq, Drop)]
pub enum ErrorCode {
    Access,
    Already,
    BadDescriptor,
    Busy,
    Exist,
    FileTooLarge,
    IllegalByteSequence,
    InProgress,
    Interrupted,
    Invalid,
    Io,
    IsDirectory,
    Loop,
    TooManyLinks,
    NameTooLong,
    NoEntry,
    InsufficientMemory,
    InsufficientSpace,
    NotDirectory,
    NotEmpty,
    Unsupported,
    Overflow,
    NotPermitted,
    Pipe,
    InvalidSeek,
}

/// How a file will be used.
#[derive(Clone, Copy, Debug, PartialEq, Eq, Drop)]
pub enum Advice {
    Normal,
    Sequential,
    Random,
    WillNeed,
    DontNeed,
    NoReuse,
}

/// What a descriptor or an entry names.
#[derive(Drop)]
pub enum DescriptorType {
    BlockDevice,
    CharacterDevice,
    Directory,
    SymbolicLink,
    RegularFile,
    /// None of these, with a word for it where there is one.
    Other(Option<CwdText>),
}

/// What is known of a node.
#[derive(Drop)]
pub struct DescriptorStat {
    pub type_: DescriptorType,
    /// How many entries name the node; 1 for a root.
    pub link_count: u64,
    /// The length in bytes of a file, or of a link's text; 0 for a directory.
    pub size: u64,
    pub data_access_timestamp: Option<Instant>,
    pub data_modification_timestamp: Option<Instant>,
    pub status_change_timestamp: Option<Instant>,
}

/// A number of a node that no other node has: the node's number in its tree, and the tree's.
#[derive(Clone, Copy, Debug, PartialEq, Eq, Drop)]
pub struct MetadataHashValue {
    pub lower: u64,
    pub upper: u64,
}
