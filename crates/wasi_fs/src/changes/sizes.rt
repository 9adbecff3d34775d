ghost use Rattle.wasi_fs.specs.Calls.{size_set};
ghost use Rattle.wasi_fs.specs.Outcome.{Leaves};
ghost use Rattle.wasi_fs.specs.Trees.{IsOf, KeepsDescriptors};

use crate::changes::flags::may_write;
use crate::descriptor::Descriptor;
use crate::laws::calls_keep_kinds;
use crate::outcome::from_store;
use crate::tree::Tree;
use wasi_base::TrappableError;
use wasi_fs_types::{ErrorCode, FilesystemResult, FsPerms};

impl Tree {
    /// Cuts a file to a size, or fills it with zeros. Its times stay.
    ///
    /// # Errors
    ///
    /// `BadDescriptor` for a directory; `NotPermitted` where the perms are to read only, then where
    /// the file was not opened to write; `FileTooLarge` for a size over 1048576;
    /// `InsufficientSpace` where the files of the tree would have more than 67108864 bytes.
    pub fn set_size(&mut self, at: &Descriptor, size: u64) -> FilesystemResult<()>
        requires { IsOf self.old at.now }
        ensures leaves { Leaves self.old self.new result (size_set self.old.nodes at.now size) }
        ensures kept { KeepsDescriptors self.old self.new }
    {
        calls_keep_kinds();
        self.resize(at, size)
    }

    fn resize(&mut self, at: &Descriptor, size: u64) -> FilesystemResult<()>
        requires { IsOf self.old at.now }
        ensures { Leaves self.old self.new result (size_set self.old.nodes at.now size) }
    {
        let Descriptor::File(file) = *at else {
            return Err(TrappableError::Normal(ErrorCode::BadDescriptor));
        };
        if file.perms == FsPerms::ReadOnly {
            return Err(TrappableError::Normal(ErrorCode::NotPermitted));
        }
        if !may_write(file.mode) {
            return Err(TrappableError::Normal(ErrorCode::NotPermitted));
        }
        from_store(self.nodes.set_size(file.node, size))
    }
}
