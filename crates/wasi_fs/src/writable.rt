ghost use Rattle.std.specs.Prelude.{◌≡◌, IfOk};
ghost use Rattle.wasi_fs.specs.Calls.{as_writable_directories};
ghost use Rattle.wasi_fs.specs.Trees.{as_writable_directory, IsOf, IsOfIfHere, IsDirOf};

use crate::descriptor::{Descriptor, Dir};
use crate::tree::Tree;
use wasi_fs_types::{ErrorCode, FsPerms};

/// Two directories, where both descriptors are such that changes may be made below them.
fn both_writable(at: &Descriptor, to: &Descriptor) -> Result<(Dir, Dir), ErrorCode>
    ensures { result ≡ as_writable_directories at.now to.now }
{
    let dir = match at.as_directory() {
        Err(code) => return Err(code),
        Ok(dir) => dir,
    };
    let to_dir = match to.as_directory() {
        Err(code) => return Err(code),
        Ok(dir) => dir,
    };
    if dir.perms == FsPerms::ReadOnly || to_dir.perms == FsPerms::ReadOnly {
        return Err(ErrorCode::NotPermitted);
    }
    if dir.tree != to_dir.tree {
        return Err(ErrorCode::Invalid);
    }
    Ok((dir, to_dir))
}

impl Tree {
    /// The directory of a descriptor, where changes may be made below it.
    pub(crate) fn writable_directory(&self, at: &Descriptor) -> Result<Dir, ErrorCode>
        requires { IsOf self.now at.now }
        ensures is { result ≡ as_writable_directory at.now }
        ensures of_tree { IfOk result (λ dir. IsDirOf self.now dir) }
    {
        at.as_writable_directory()
    }

    /// The directories of two descriptors of one tree, where changes may be made below both.
    pub(crate) fn writable_directories(
        &self,
        at: &Descriptor,
        to: &Descriptor,
    ) -> Result<(Dir, Dir), ErrorCode>
        requires at { IsOf self.now at.now }
        requires to { IsOfIfHere self.now to.now }
        ensures is { result ≡ as_writable_directories at.now to.now }
        ensures from { IfOk result (λ dirs. IsDirOf self.now dirs.0) }
        ensures onto { IfOk result (λ dirs. IsDirOf self.now dirs.1) }
    {
        both_writable(at, to)
    }
}
