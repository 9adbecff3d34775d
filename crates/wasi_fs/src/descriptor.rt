ghost use Rattle.std.specs.Prelude.{◌≡◌};
ghost use Rattle.wasi_fs.specs.Trees.{tree_in, node_in, perms_in, as_file, as_directory, as_writable_directory};

use wasi_fs_types::{ErrorCode, FsPerms, OpenMode};

/// A file that is open.
#[derive(Clone, Copy, Debug, PartialEq, Eq)]
pub struct File {
    /// The number of its tree.
    pub tree: u32,
    /// The number of its node there.
    pub node: u64,
    pub perms: FsPerms,
    pub mode: OpenMode,
    /// Whether its streams work at once, and not by a task.
    pub blocking: bool,
}

/// A directory that is open.
#[derive(Clone, Copy, Debug, PartialEq, Eq)]
pub struct Dir {
    /// The number of its tree.
    pub tree: u32,
    /// The number of its node there.
    pub node: u64,
    /// What may be done below it.
    pub perms: FsPerms,
    pub mode: OpenMode,
    /// Whether its streams work at once, and not by a task.
    pub blocking: bool,
}

/// What is open: a file or a directory. It keeps working after its entry is removed.
#[derive(Clone, Copy, Debug, PartialEq, Eq)]
pub enum Descriptor {
    File(File),
    Dir(Dir),
}

impl Descriptor {
    /// The number of its tree.
    pub fn tree(&self) -> u32
        ensures { result ≡ tree_in self.now }
    {
        match self {
            Descriptor::File(file) => file.tree,
            Descriptor::Dir(dir) => dir.tree,
        }
    }

    /// The number of its node there.
    pub fn node(&self) -> u64
        ensures { result ≡ node_in self.now }
    {
        match self {
            Descriptor::File(file) => file.node,
            Descriptor::Dir(dir) => dir.node,
        }
    }

    pub fn perms(&self) -> FsPerms
        ensures { result ≡ perms_in self.now }
    {
        match self {
            Descriptor::File(file) => file.perms,
            Descriptor::Dir(dir) => dir.perms,
        }
    }

    /// The file, where it is one.
    ///
    /// # Errors
    ///
    /// `BadDescriptor` for a directory.
    pub fn as_file(&self) -> Result<File, ErrorCode>
        ensures { result ≡ as_file self.now }
    {
        match self {
            Descriptor::File(file) => Ok(*file),
            Descriptor::Dir(_) => Err(ErrorCode::BadDescriptor),
        }
    }

    /// The directory, where it is one.
    ///
    /// # Errors
    ///
    /// `NotDirectory` for a file.
    pub fn as_directory(&self) -> Result<Dir, ErrorCode>
        ensures { result ≡ as_directory self.now }
    {
        match self {
            Descriptor::File(_) => Err(ErrorCode::NotDirectory),
            Descriptor::Dir(dir) => Ok(*dir),
        }
    }

    /// The directory, where it is one below which changes may be made.
    ///
    /// # Errors
    ///
    /// `NotDirectory` for a file, then `NotPermitted` for one that may only be read.
    pub fn as_writable_directory(&self) -> Result<Dir, ErrorCode>
        ensures { result ≡ as_writable_directory self.now }
    {
        match self.as_directory() {
            Ok(dir) if dir.perms == FsPerms::ReadOnly => Err(ErrorCode::NotPermitted),
            outcome => outcome,
        }
    }
}
