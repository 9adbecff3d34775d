//! The types of the filesystem, those of the host and those of WASI 0.3, and the conversions
//! between them.
#![tactic(auto)]

mod convert;
mod descriptor;
mod error_code;
mod flags;
pub mod p3;
#[cfg(test)]
mod tests;

pub use descriptor::{
    Advice, DescriptorStat, DescriptorType, FsPerms, MetadataHashValue, NewTimestamp,
};
pub use error_code::{ErrorCode, FilesystemError, FilesystemResult};
pub use flags::{DescriptorFlags, OpenFlags, OpenMode, PathFlags};
pub use wasi_base::Text as CwdText;
