ghost use Rattle.std.specs.Prelude.{◌≡◌, ℕ, Bool, Some};
ghost use Rattle.wasi_fs_nodes.specs.Nodes.{kind_at, TellsBelow};
ghost use Rattle.wasi_fs_nodes.specs.Outcome.{then, Leaves as LeavesNodes, LeavesAlways as NodesAlways};
ghost use Rattle.wasi_fs_nodes.specs.declared.node.Kind.TheVariants.{Directory};
ghost use Rattle.wasi_fs_paths.specs.Paths.{resolved};
ghost use Rattle.wasi_fs_paths.specs.Places.{place_of, IsPlace};
ghost use Rattle.wasi_fs.specs.Calls.{there, there_or_new, file_unlinked, file_unlinked_at, renamed_at, node_renamed};
ghost use Rattle.wasi_fs.specs.Outcome.{Leaves, LeavesAlways};
ghost use Rattle.wasi_fs.specs.Trees.{IsOf, IsOfIfHere, KeepsDescriptors};

use crate::descriptor::Descriptor;
use crate::laws::calls_keep_kinds;
use crate::making::{THERE, THERE_OR_NEW};
use crate::outcome::{from_store, told};
use crate::tree::Tree;
use wasi_base::TrappableError;
use wasi_fs_nodes::{Nodes, StoreError, below_is_told};
use wasi_fs_paths::{Place, resolve};
use wasi_fs_types::{ErrorCode, FilesystemResult};

fn unlink_place(nodes: &mut Nodes, place: Place<'_>) -> Result<(), ErrorCode>
    ensures { NodesAlways nodes.old nodes.new result (file_unlinked_at nodes.old (place_of place.entry)) }
{
    match place {
        Place::Inside(_) => Err(ErrorCode::IsDirectory),
        Place::Named(dir, name, _) => nodes.unlink(dir, name),
    }
}

/// A file or a link loses the name that a path ends in.
fn unlink(nodes: &mut Nodes, start: u64, path: &str) -> Result<(), ErrorCode>
    requires { kind_at nodes.old start ≡ Some Directory }
    ensures { NodesAlways nodes.old nodes.new result (then (resolved nodes.old start there path.now) (file_unlinked_at nodes.old)) }
{
    match resolve(nodes, start, THERE, path) {
        Err(code) => Err(code),
        Ok(place) => unlink_place(nodes, place),
    }
}

fn rename_place(nodes: &mut Nodes, from: Place<'_>, to: Place<'_>) -> Result<(), StoreError>
    requires { IsPlace nodes.old (place_of to) }
    ensures { (below : ℕ → ℕ → Bool) → TellsBelow nodes.old below → LeavesNodes nodes.old nodes.new result (renamed_at below nodes.old (place_of from.entry) (place_of to.entry)) }
{
    match (from, to) {
        (Place::Named(dir, name, _), Place::Named(to_dir, to_name, _)) => {
            nodes.rename(dir, name, to_dir, to_name)
        }
        _ => Err(StoreError::Code(ErrorCode::Invalid)),
    }
}

/// What one path names takes the place of another path.
fn rename(
    nodes: &mut Nodes,
    from: u64,
    path: &str,
    to: u64,
    to_path: &str,
) -> Result<(), StoreError>
    requires from { kind_at nodes.old from ≡ Some Directory }
    requires to { kind_at nodes.old to ≡ Some Directory }
    ensures { (below : ℕ → ℕ → Bool) → TellsBelow nodes.old below → LeavesNodes nodes.old nodes.new result (then (resolved nodes.old from there path.now) (λ place. then (resolved nodes.old to there_or_new to_path.now) (renamed_at below nodes.old place))) }
{
    let from = match resolve(nodes, from, THERE, path) {
        Err(code) => return Err(StoreError::Code(code)),
        Ok(place) => place,
    };
    match resolve(nodes, to, THERE_OR_NEW, to_path) {
        Err(code) => Err(StoreError::Code(code)),
        Ok(place) => rename_place(nodes, from, place),
    }
}

impl Tree {
    /// Takes the name of a file or a link away. It stays for those that have it open, and its bytes
    /// count on.
    ///
    /// # Errors
    ///
    /// `NotDirectory` for a file; `NotPermitted` where the perms are to read only; the path's;
    /// `IsDirectory` for a directory.
    pub fn unlink_file_at(&mut self, at: &Descriptor, path: &str) -> FilesystemResult<()>
        requires { IsOf self.old at.now }
        ensures leaves { LeavesAlways self.old self.new result (file_unlinked self.old.nodes at.now path.now) }
        ensures kept { KeepsDescriptors self.old self.new }
    {
        calls_keep_kinds();
        self.take_name(at, path)
    }

    fn take_name(&mut self, at: &Descriptor, path: &str) -> FilesystemResult<()>
        requires { IsOf self.old at.now }
        ensures { LeavesAlways self.old self.new result (file_unlinked self.old.nodes at.now path.now) }
    {
        let dir = match self.writable_directory(at) {
            Err(code) => return Err(TrappableError::Normal(code)),
            Ok(dir) => dir,
        };
        told(unlink(&mut self.nodes, dir.node, path))
    }

    /// What the first path names takes the place of the second one. Two names of one node stay as
    /// they are.
    ///
    /// # Errors
    ///
    /// `NotDirectory` where one of the two is a file; `NotPermitted` where the perms of one are to
    /// read only; `Invalid` for two trees; the first path's, the second path's; `Invalid` where a
    /// path has no last name, and for a directory that would go into itself or below itself;
    /// `IsDirectory` for a directory in the place of another node; `NotEmpty` where it has entries;
    /// `NotDirectory` where a directory would take the place of a file or a link; `NoEntry` in a
    /// removed directory, which lies below none.
    pub fn rename_at(
        &mut self,
        at: &Descriptor,
        path: &str,
        to: &Descriptor,
        to_path: &str,
    ) -> FilesystemResult<()>
        requires at { IsOf self.old at.now }
        requires to { IsOfIfHere self.old to.now }
        ensures leaves { (below : ℕ → ℕ → Bool) → TellsBelow self.old.nodes below → Leaves self.old self.new result (node_renamed below self.old.nodes at.now path.now to.now to_path.now) }
        ensures kept { KeepsDescriptors self.old self.new }
    {
        calls_keep_kinds();
        below_is_told();
        let _ = self.root();
        self.move_name(at, path, to, to_path)
    }

    fn move_name(
        &mut self,
        at: &Descriptor,
        path: &str,
        to: &Descriptor,
        to_path: &str,
    ) -> FilesystemResult<()>
        requires at { IsOf self.old at.now }
        requires to { IsOfIfHere self.old to.now }
        ensures { (below : ℕ → ℕ → Bool) → TellsBelow self.old.nodes below → Leaves self.old self.new result (node_renamed below self.old.nodes at.now path.now to.now to_path.now) }
    {
        let (from, onto) = match self.writable_directories(at, to) {
            Err(code) => return Err(TrappableError::Normal(code)),
            Ok(dirs) => dirs,
        };
        from_store(rename(&mut self.nodes, from.node, path, onto.node, to_path))
    }
}
