ghost use Rattle.std.specs.Prelude.{◌≡◌, Some};
ghost use Rattle.wasi_fs_nodes.specs.Nodes.{kind_at};
ghost use Rattle.wasi_fs_nodes.specs.Outcome.{then, LeavesAlways as NodesAlways};
ghost use Rattle.wasi_fs_nodes.specs.declared.node.Kind.TheVariants.{Directory};
ghost use Rattle.wasi_fs_paths.specs.Paths.{resolved};
ghost use Rattle.wasi_fs_paths.specs.Places.{place_of};
ghost use Rattle.wasi_fs.specs.Calls.{there, directory_created, directory_removed_at, removed};
ghost use Rattle.wasi_fs.specs.Outcome.{Leaves, LeavesAlways};
ghost use Rattle.wasi_fs.specs.Trees.{IsOf, KeepsDescriptors};

use crate::descriptor::Descriptor;
use crate::laws::calls_keep_kinds;
use crate::making::{New, THERE};
use crate::outcome::told;
use crate::times::time_of;
use crate::tree::Tree;
use wasi_base::TrappableError;
use wasi_clocks::WallTime;
use wasi_fs_nodes::Nodes;
use wasi_fs_paths::{Place, resolve};
use wasi_fs_types::{ErrorCode, FilesystemResult};

fn remove_at(nodes: &mut Nodes, place: Place<'_>) -> Result<(), ErrorCode>
    ensures { NodesAlways nodes.old nodes.new result (directory_removed_at nodes.old (place_of place.entry)) }
{
    match place {
        Place::Inside(_) => Err(ErrorCode::Invalid),
        Place::Named(dir, name, _) => nodes.remove_directory(dir, name),
    }
}

/// A directory is removed by its path from another one.
fn remove(nodes: &mut Nodes, start: u64, path: &str) -> Result<(), ErrorCode>
    requires { kind_at nodes.old start ≡ Some Directory }
    ensures { NodesAlways nodes.old nodes.new result (then (resolved nodes.old start there path.now) (directory_removed_at nodes.old)) }
{
    match resolve(nodes, start, THERE, path) {
        Err(code) => Err(code),
        Ok(place) => remove_at(nodes, place),
    }
}

impl Tree {
    /// Makes a directory.
    ///
    /// # Errors
    ///
    /// `NotDirectory` for a file; `NotPermitted` where the perms are to read only; the path's;
    /// `Exist` where the last name is there, or the path has none; `NoEntry` in a removed directory;
    /// `InsufficientSpace` where the tree has 65536 nodes.
    pub fn create_directory_at(
        &mut self,
        at: &Descriptor,
        path: &str,
        now: WallTime,
    ) -> FilesystemResult<()>
        requires { IsOf self.old at.now }
        ensures leaves { Leaves self.old self.new result (directory_created self.old.nodes at.now path.now now) }
        ensures kept { KeepsDescriptors self.old self.new }
    {
        calls_keep_kinds();
        self.make_directory(at, path, now)
    }

    fn make_directory(&mut self, at: &Descriptor, path: &str, now: WallTime) -> FilesystemResult<()>
        requires { IsOf self.old at.now }
        ensures { Leaves self.old self.new result (directory_created self.old.nodes at.now path.now now) }
    {
        let dir = match self.writable_directory(at) {
            Err(code) => return Err(TrappableError::Normal(code)),
            Ok(dir) => dir,
        };
        self.make_below(dir, path, New::Directory, time_of(now))
    }

    /// Removes the entry of a directory that has none itself. It stays for those that have it open.
    ///
    /// # Errors
    ///
    /// `NotDirectory` for a file; `NotPermitted` where the perms are to read only; the path's;
    /// `Invalid` where the path has no last name; `NotDirectory` where it names no directory;
    /// `NotEmpty` where entries are left.
    pub fn remove_directory_at(&mut self, at: &Descriptor, path: &str) -> FilesystemResult<()>
        requires { IsOf self.old at.now }
        ensures leaves { LeavesAlways self.old self.new result (removed self.old.nodes at.now path.now) }
        ensures kept { KeepsDescriptors self.old self.new }
    {
        calls_keep_kinds();
        self.take_directory(at, path)
    }

    fn take_directory(&mut self, at: &Descriptor, path: &str) -> FilesystemResult<()>
        requires { IsOf self.old at.now }
        ensures { LeavesAlways self.old self.new result (removed self.old.nodes at.now path.now) }
    {
        let dir = match self.writable_directory(at) {
            Err(code) => return Err(TrappableError::Normal(code)),
            Ok(dir) => dir,
        };
        told(remove(&mut self.nodes, dir.node, path))
    }
}
