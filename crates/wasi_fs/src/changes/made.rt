ghost use Rattle.std.specs.Prelude.{◌≡◌, Some};
ghost use Rattle.wasi_fs_nodes.specs.Nodes.{kind_at};
ghost use Rattle.wasi_fs_nodes.specs.Outcome.{then, Leaves};
ghost use Rattle.wasi_fs_nodes.specs.declared.node.Kind.TheVariants.{Directory};
ghost use Rattle.wasi_fs_paths.specs.Paths.{resolved};
ghost use Rattle.wasi_fs.specs.Calls.{there_or_new, made_at};
ghost use Rattle.wasi_fs.specs.Making.{node_for};
ghost use Rattle.wasi_fs.specs.Outcome.{Leaves as LeavesTree};
ghost use Rattle.wasi_fs.specs.Trees.{IsDirOf};

use crate::descriptor::Dir;
use crate::making::{New, THERE_OR_NEW, make_at};
use crate::outcome::done;
use crate::tree::Tree;
use wasi_clocks::Datetime;
use wasi_fs_nodes::{Nodes, StoreError};
use wasi_fs_paths::resolve;
use wasi_fs_types::FilesystemResult;

/// A new node by its path from a directory.
fn make(
    nodes: &mut Nodes,
    start: u64,
    path: &str,
    new: New<'_>,
    time: Option<Datetime>,
) -> Result<u64, StoreError>
    requires { kind_at nodes.old start ≡ Some Directory }
    ensures { Leaves nodes.old nodes.new result (then (resolved nodes.old start there_or_new path.now) (made_at nodes.old (node_for new.entry time))) }
{
    match resolve(nodes, start, THERE_OR_NEW, path) {
        Err(code) => Err(StoreError::Code(code)),
        Ok(place) => make_at(nodes, place, new, time),
    }
}

impl Tree {
    /// A new node by its path from a directory.
    pub(crate) fn make_below(
        &mut self,
        dir: Dir,
        path: &str,
        new: New<'_>,
        time: Option<Datetime>,
    ) -> FilesystemResult<()>
        requires { IsDirOf self.old dir }
        ensures { LeavesTree self.old self.new result (then (resolved self.old.nodes dir.node there_or_new path.now) (made_at self.old.nodes (node_for new.entry time))) }
    {
        done(make(&mut self.nodes, dir.node, path, new, time))
    }
}
