ghost use Rattle.std.specs.Prelude.{◌≡◌, Some, Ok};
ghost use Rattle.wasi_fs_nodes.specs.Bodies.{with_times};
ghost use Rattle.wasi_fs_nodes.specs.Nodes.{kind_at};
ghost use Rattle.wasi_fs_nodes.specs.Outcome.{then, LeavesAlways as NodesAlways};
ghost use Rattle.wasi_fs_nodes.specs.declared.node.Kind.TheVariants.{Directory};
ghost use Rattle.wasi_fs_paths.specs.Paths.{found};
ghost use Rattle.wasi_fs.specs.Calls.{times_for, times_set, times_set_at};
ghost use Rattle.wasi_fs.specs.Outcome.{LeavesAlways};
ghost use Rattle.wasi_fs.specs.Trees.{IsOf, KeepsDescriptors};

use crate::changes::flags::follows;
use crate::descriptor::Descriptor;
use crate::laws::calls_keep_kinds;
use crate::outcome::told;
use crate::times::new_time;
use crate::tree::Tree;
use wasi_base::TrappableError;
use wasi_clocks::{Datetime, WallTime};
use wasi_fs_nodes::Nodes;
use wasi_fs_paths::find;
use wasi_fs_types::{ErrorCode, FilesystemResult, FsPerms, NewTimestamp, PathFlags};

/// The two times that a node is given; `None` leaves one.
fn times_for(
    access: NewTimestamp,
    modified: NewTimestamp,
    now: WallTime,
) -> Result<(Option<Datetime>, Option<Datetime>), ErrorCode>
    ensures { result ≡ times_for access modified now }
{
    match (new_time(access, now), new_time(modified, now)) {
        (Err(code), _) => Err(code),
        (Ok(_), Err(code)) => Err(code),
        (Ok(access), Ok(modified)) => Ok((access, modified)),
    }
}

/// Other times for what a path names from a directory.
fn set_at(
    nodes: &mut Nodes,
    start: u64,
    follow: bool,
    path: &str,
    access: Option<Datetime>,
    modified: Option<Datetime>,
) -> Result<(), ErrorCode>
    requires { kind_at nodes.old start ≡ Some Directory }
    ensures { NodesAlways nodes.old nodes.new result (then (found nodes.old start follow path.now) (λ n. Ok (with_times nodes.old n access modified))) }
{
    match find(nodes, start, follow, path) {
        Err(code) => Err(code),
        Ok(node) => {
            nodes.set_times(node, access, modified);
            Ok(())
        }
    }
}

impl Tree {
    /// Sets the times of access and of the last change of the bytes. The time of the last change of
    /// the status stays.
    ///
    /// # Errors
    ///
    /// `Overflow` where a time does not fit; then `NotPermitted` where the perms are to read only.
    pub fn set_times(
        &mut self,
        at: &Descriptor,
        access: NewTimestamp,
        modified: NewTimestamp,
        now: WallTime,
    ) -> FilesystemResult<()>
        requires { IsOf self.old at.now }
        ensures leaves { LeavesAlways self.old self.new result (times_set self.old.nodes at.now access modified now) }
        ensures kept { KeepsDescriptors self.old self.new }
    {
        calls_keep_kinds();
        self.retime(at, access, modified, now)
    }

    fn retime(
        &mut self,
        at: &Descriptor,
        access: NewTimestamp,
        modified: NewTimestamp,
        now: WallTime,
    ) -> FilesystemResult<()>
        requires { IsOf self.old at.now }
        ensures { LeavesAlways self.old self.new result (times_set self.old.nodes at.now access modified now) }
    {
        let (access, modified) = match times_for(access, modified, now) {
            Err(code) => return Err(TrappableError::Normal(code)),
            Ok(times) => times,
        };
        if at.perms() == FsPerms::ReadOnly {
            return Err(TrappableError::Normal(ErrorCode::NotPermitted));
        }
        self.nodes.set_times(at.node(), access, modified);
        Ok(())
    }

    /// The same for what a path names.
    ///
    /// # Errors
    ///
    /// `Overflow` where a time does not fit; `NotDirectory` for a file; `NotPermitted` where the
    /// perms are to read only; then the path's.
    pub fn set_times_at(
        &mut self,
        at: &Descriptor,
        flags: PathFlags,
        path: &str,
        access: NewTimestamp,
        modified: NewTimestamp,
        now: WallTime,
    ) -> FilesystemResult<()>
        requires { IsOf self.old at.now }
        ensures leaves { LeavesAlways self.old self.new result (times_set_at self.old.nodes at.now flags path.now access modified now) }
        ensures kept { KeepsDescriptors self.old self.new }
    {
        calls_keep_kinds();
        self.retime_at(at, flags, path, access, modified, now)
    }

    fn retime_at(
        &mut self,
        at: &Descriptor,
        flags: PathFlags,
        path: &str,
        access: NewTimestamp,
        modified: NewTimestamp,
        now: WallTime,
    ) -> FilesystemResult<()>
        requires { IsOf self.old at.now }
        ensures { LeavesAlways self.old self.new result (times_set_at self.old.nodes at.now flags path.now access modified now) }
    {
        let (access, modified) = match times_for(access, modified, now) {
            Err(code) => return Err(TrappableError::Normal(code)),
            Ok(times) => times,
        };
        let dir = match self.writable_directory(at) {
            Err(code) => return Err(TrappableError::Normal(code)),
            Ok(dir) => dir,
        };
        let follow = follows(flags);
        told(set_at(&mut self.nodes, dir.node, follow, path, access, modified))
    }
}
