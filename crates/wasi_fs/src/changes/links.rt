ghost use Rattle.std.specs.Prelude.{◌≡◌, ◌<◌, length, Some, false};
ghost use Rattle.wasi_fs_nodes.specs.Nodes.{kind_at};
ghost use Rattle.wasi_fs_nodes.specs.Outcome.{then, Leaves as LeavesNodes};
ghost use Rattle.wasi_fs_nodes.specs.declared.node.Kind.TheVariants.{Directory};
ghost use Rattle.wasi_fs_paths.specs.Components.{begins_with_slash};
ghost use Rattle.wasi_fs_paths.specs.Paths.{resolved, found};
ghost use Rattle.wasi_fs_paths.specs.Places.{place_of, IsPlace};
ghost use Rattle.wasi_fs.specs.Calls.{there_or_new, symlink_made, linked_at, link_made};
ghost use Rattle.wasi_fs.specs.Outcome.{Leaves};
ghost use Rattle.wasi_fs.specs.Trees.{IsOf, IsOfIfHere, KeepsDescriptors};

use crate::changes::flags::follows;
use crate::descriptor::Descriptor;
use crate::laws::calls_keep_kinds;
use crate::making::{New, THERE_OR_NEW};
use crate::outcome::from_store;
use crate::times::time_of;
use crate::tree::Tree;
use wasi_base::TrappableError;
use wasi_clocks::WallTime;
use wasi_fs_nodes::{Nodes, StoreError};
use wasi_fs_paths::{Place, find, resolve};
use wasi_fs_types::{ErrorCode, FilesystemResult, PathFlags};

fn begins_with_slash(text: &str) -> bool
    ensures { result ≡ begins_with_slash text.now }
{
    text.starts_with("/")
}

fn link_at_place(nodes: &mut Nodes, node: u64, place: Place<'_>) -> Result<(), StoreError>
    requires made { node < length nodes.old }
    requires place { IsPlace nodes.old (place_of place) }
    ensures { LeavesNodes nodes.old nodes.new result (linked_at nodes.old node (place_of place.entry)) }
{
    match place {
        Place::Inside(_) => {
            if nodes.is_directory(node) {
                Err(StoreError::Code(ErrorCode::NotPermitted))
            } else {
                Err(StoreError::Code(ErrorCode::Exist))
            }
        }
        Place::Named(dir, name, _) => nodes.link(dir, name, node),
    }
}

/// One more name for what a path names.
fn link(nodes: &mut Nodes, from: u64, path: &str, to: u64, to_path: &str) -> Result<(), StoreError>
    requires from { kind_at nodes.old from ≡ Some Directory }
    requires to { kind_at nodes.old to ≡ Some Directory }
    ensures { LeavesNodes nodes.old nodes.new result (then (found nodes.old from false path.now) (λ node. then (resolved nodes.old to there_or_new to_path.now) (linked_at nodes.old node))) }
{
    let node = match find(nodes, from, false, path) {
        Err(code) => return Err(StoreError::Code(code)),
        Ok(node) => node,
    };
    match resolve(nodes, to, THERE_OR_NEW, to_path) {
        Err(code) => Err(StoreError::Code(code)),
        Ok(place) => link_at_place(nodes, node, place),
    }
}

impl Tree {
    /// Makes a link with a text. No call follows it.
    ///
    /// # Errors
    ///
    /// `NotDirectory` for a file; `NotPermitted` where the perms are to read only, and for a text
    /// that begins with `/`; the path's; `Exist` where the last name is there, or the path has none;
    /// `NoEntry` in a removed directory; `InsufficientSpace` where the tree has 65536 nodes.
    pub fn symlink_at(
        &mut self,
        at: &Descriptor,
        text: &str,
        path: &str,
        now: WallTime,
    ) -> FilesystemResult<()>
        requires { IsOf self.old at.now }
        ensures leaves { Leaves self.old self.new result (symlink_made self.old.nodes at.now text.now path.now now) }
        ensures kept { KeepsDescriptors self.old self.new }
    {
        calls_keep_kinds();
        self.make_symlink(at, text, path, now)
    }

    fn make_symlink(
        &mut self,
        at: &Descriptor,
        text: &str,
        path: &str,
        now: WallTime,
    ) -> FilesystemResult<()>
        requires { IsOf self.old at.now }
        ensures { Leaves self.old self.new result (symlink_made self.old.nodes at.now text.now path.now now) }
    {
        let dir = match self.writable_directory(at) {
            Err(code) => return Err(TrappableError::Normal(code)),
            Ok(dir) => dir,
        };
        if begins_with_slash(text) {
            return Err(TrappableError::Normal(ErrorCode::NotPermitted));
        }
        self.make_below(dir, path, New::Link(text), time_of(now))
    }

    /// Gives a file or a link one more name.
    ///
    /// # Errors
    ///
    /// `NotDirectory` where one of the two is a file; `NotPermitted` where the perms of one are to
    /// read only; `Invalid` for two trees, and where links are to be followed; the first path's, the
    /// second path's; `NotPermitted` for a directory; `Exist` where the second path's last name is
    /// there, or it has none; `NoEntry` in a removed directory.
    pub fn link_at(
        &mut self,
        at: &Descriptor,
        flags: PathFlags,
        path: &str,
        to: &Descriptor,
        to_path: &str,
    ) -> FilesystemResult<()>
        requires at { IsOf self.old at.now }
        requires to { IsOfIfHere self.old to.now }
        ensures leaves { Leaves self.old self.new result (link_made self.old.nodes at.now flags path.now to.now to_path.now) }
        ensures kept { KeepsDescriptors self.old self.new }
    {
        calls_keep_kinds();
        self.add_name(at, flags, path, to, to_path)
    }

    fn add_name(
        &mut self,
        at: &Descriptor,
        flags: PathFlags,
        path: &str,
        to: &Descriptor,
        to_path: &str,
    ) -> FilesystemResult<()>
        requires at { IsOf self.old at.now }
        requires to { IsOfIfHere self.old to.now }
        ensures { Leaves self.old self.new result (link_made self.old.nodes at.now flags path.now to.now to_path.now) }
    {
        let (from, onto) = match self.writable_directories(at, to) {
            Err(code) => return Err(TrappableError::Normal(code)),
            Ok(dirs) => dirs,
        };
        if follows(flags) {
            return Err(TrappableError::Normal(ErrorCode::Invalid));
        }
        from_store(link(&mut self.nodes, from.node, path, onto.node, to_path))
    }
}
