//! Trees of files in memory, and the calls on descriptors that are open in them.
#![tactic(auto)]

mod add;
mod changes;
mod descriptor;
mod entries;
mod laws;
mod list;
mod look_ups;
mod making;
mod memory_store;
mod open;
mod opening;
mod outcome;
mod store;
#[cfg(test)]
mod tests;
mod times;
mod tree;
mod writable;

pub use descriptor::{Descriptor, Dir, File};
pub use entries::{DirectoryEntries, DirectoryEntry};
pub use laws::{calls_keep_kinds, openings_keep_kinds, stores_keep_descriptors};
pub use list::map_dir_entry;
pub use memory_store::MemStore;
pub use store::Store;
pub use tree::Tree;
pub use wasi_fs_nodes::{At, StoreError};
pub use wasi_fs_types::{
    Advice, CwdText, DescriptorFlags, DescriptorStat, DescriptorType, ErrorCode, FilesystemError,
    FilesystemResult, FsPerms, MetadataHashValue, NewTimestamp, OpenFlags, OpenMode, PathFlags, p3,
};
