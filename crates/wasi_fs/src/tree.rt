ghost use Rattle.std.specs.Prelude.{◌≡◌, ◌≤◌, Some, None, false, true, IfOk};
ghost use Rattle.wasi_fs_nodes.specs.Changes.{root_alone};
ghost use Rattle.wasi_fs_nodes.specs.Shape.{IsSound};
ghost use Rattle.wasi_fs.specs.Times.{time_of};
ghost use Rattle.wasi_fs.specs.Trees.{IsDirOf, IsOf, holds, after_fault};

use crate::descriptor::{Descriptor, Dir};
use crate::times::time_of;
use bitflags::Flags;
use std::alloc::Global;
use std::marker::Model;
use wasi_base::{IoKind, OutOfMemory};
use wasi_clocks::WallTime;
use wasi_fs_nodes::{Kind, Nodes};
use wasi_fs_types::{FsPerms, OpenMode};

/// A tree of files, directories and links in memory. Contracts see its number among the trees, its
/// nodes, the fault that is planned for the next call on data, and how many such faults were met.
#[derive(Drop)]
pub struct Tree {
    pub(crate) alloc: Global,
    pub(crate) number: u32,
    pub(crate) nodes: Nodes,
    pub(crate) planned: Option<IoKind>,
    pub(crate) faults: u64,
}

impl Model for Tree {
    ghost use Rattle.wasi_fs.specs.Trees.{TreeState};

    ghost Value = { TreeState };

    ghost view = { λ tree. record { number = tree.number; nodes = tree.nodes; planned = tree.planned; faults = tree.faults } };
}

impl Tree {
    /// A tree of its root alone, with the number that its descriptors hold.
    pub fn new(alloc: Global, number: u32, now: WallTime) -> Result<Tree, OutOfMemory>
        ensures { IfOk result (λ tree. tree ≡ record { number = number; nodes = root_alone (time_of now); planned = None; faults = 0 }) }
    {
        let nodes = Nodes::new(alloc, time_of(now))?;
        Ok(Tree {
            alloc,
            number,
            nodes,
            planned: None,
            faults: 0,
        })
    }

    pub(crate) fn nodes(&self) -> &Nodes
        ensures { result.now ≡ self.now.nodes }
    {
        &self.nodes
    }

    pub(crate) fn alloc(&self) -> Global {
        self.alloc
    }

    pub(crate) fn number(&self) -> u32
        ensures { result ≡ self.now.number }
    {
        self.number
    }

    /// The root, to be read, written and changed, whose streams work by tasks. The tree is sound:
    /// each entry names a node that was made, and each directory stands in the one that it names as
    /// its parent, and in no other.
    pub fn root(&self) -> Dir
        ensures is { result ≡ record { tree = self.now.number; node = 0; perms = FsPerms.ReadWrite; mode = record { 0 = 3 }; blocking = false } }
        ensures of_tree { IsDirOf self.now result }
        ensures sound { IsSound self.now.nodes }
    {
        Dir {
            tree: self.number(),
            node: self.nodes().root(),
            perms: FsPerms::ReadWrite,
            mode: OpenMode::READ.union(OpenMode::WRITE),
            blocking: false,
        }
    }

    /// Whether a descriptor is of this tree: it has the tree's number, and a node that was made here
    /// as what it is.
    pub fn holds(&self, at: &Descriptor) -> bool
        ensures is { result ≡ holds self.now at.now }
        ensures of_tree { result ≡ true → IsOf self.now at.now }
    {
        let kind = match at {
            Descriptor::File(_) => Kind::File,
            Descriptor::Dir(_) => Kind::Directory,
        };
        at.tree() == self.number && self.nodes().kind(at.node()) == Some(kind)
    }

    pub(crate) fn planned(&self) -> Option<IoKind>
        ensures { result ≡ self.now.planned }
    {
        self.planned
    }

    /// The planned fault is met: it is gone, and counted.
    pub(crate) fn meet_fault(&mut self)
        ensures after { self.new ≡ after_fault self.old }
        ensures later { self.old.faults ≤ self.new.faults }
    {
        self.planned = None;
        self.faults = self.faults.saturating_add(1);
    }

    /// How many planned faults were met.
    pub fn faults(&self) -> u64
        ensures { result ≡ self.now.faults }
    {
        self.faults
    }

    /// Plans a fault: the next call that reads, writes or lists meets it, and no other.
    pub fn fail_next(&mut self, kind: IoKind)
        ensures { self.new ≡ record self.old { planned = Some kind } }
    {
        self.planned = Some(kind);
    }
}
