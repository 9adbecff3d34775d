//! Calls on descriptors, without the descriptors that they are made on.

use wasi_base::Text;
use wasi_fs_types::{Advice, DescriptorFlags, NewTimestamp, OpenFlags, PathFlags};

/// A call on one descriptor. A path begins at the descriptor, which is then a directory.
#[derive(Drop)]
pub enum DescriptorCall {
    /// `advise`: how so many bytes of a file from an offset on will be used.
    Advise {
        offset: u64,
        length: u64,
        advice: Advice,
    },
    /// `get-flags`
    GetFlags,
    /// `get-type`
    GetType,
    /// `set-size`: a file has so many bytes from now on.
    SetSize {
        size: u64,
    },
    /// `set-times`
    SetTimes {
        access: NewTimestamp,
        modified: NewTimestamp,
    },
    /// `set-times-at`
    SetTimesAt {
        flags: PathFlags,
        path: Text,
        access: NewTimestamp,
        modified: NewTimestamp,
    },
    /// `sync`
    Sync,
    /// `sync-data`
    SyncData,
    /// `create-directory-at`
    CreateDirectoryAt {
        path: Text,
    },
    /// `stat`
    Stat,
    /// `stat-at`
    StatAt {
        flags: PathFlags,
        path: Text,
    },
    /// `open-at`: the one call that makes a descriptor.
    OpenAt {
        flags: PathFlags,
        path: Text,
        how: OpenFlags,
        mode: DescriptorFlags,
    },
    /// `readlink-at`
    ReadlinkAt {
        path: Text,
    },
    /// `remove-directory-at`
    RemoveDirectoryAt {
        path: Text,
    },
    /// `symlink-at`: a link of this text.
    SymlinkAt {
        text: Text,
        path: Text,
    },
    /// `unlink-file-at`
    UnlinkFileAt {
        path: Text,
    },
    /// `metadata-hash`
    MetadataHash,
    /// `metadata-hash-at`
    MetadataHashAt {
        flags: PathFlags,
        path: Text,
    },
}

/// A call on two descriptors. Its first path begins at the first one, its second at the second.
#[derive(Drop)]
pub enum PairCall {
    /// `link-at`: what the first path names gets the second one's name too.
    LinkAt {
        flags: PathFlags,
        path: Text,
        to_path: Text,
    },
    /// `rename-at`: what the first path names takes the place of the second.
    RenameAt {
        path: Text,
        to_path: Text,
    },
    /// `is-same-object`
    IsSameObject,
}
