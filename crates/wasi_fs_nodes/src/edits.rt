ghost use Rattle.std.specs.Prelude.{◌≡◌, ℕ, ◌+◌, ◌-◌, ◌<◌, ◌≤◌, ◌^◌, length, Some, None, Ok, false, IfOk, OnOk, OnErr};
ghost use Rattle.wasi_fs_nodes.specs.Nodes.{kind_at, is_directory, kind_of, names_in, parent_in, bytes_in, entry_at, links_of, total_bytes, bytes_at};
ghost use Rattle.wasi_fs_nodes.specs.Shape.{IsFresh};
ghost use Rattle.wasi_fs_nodes.specs.Bodies.{with_new, with_name, without_name, with_written, with_size, with_times};
ghost use Rattle.wasi_fs_nodes.specs.Changes.{root_alone, moved};

use crate::content::Content;
use crate::names::Names;
use crate::node::{Body, Kind, Node, Times};
use crate::nodes::Nodes;
use crate::rows::{self, Row};
use std::alloc::{AllocError, Global};
use wasi_base::OutOfMemory;
use wasi_clocks::Datetime;

impl Nodes {
    /// A tree of its root alone, with this time three times.
    pub fn new(alloc: Global, now: Option<Datetime>) -> Result<Nodes, OutOfMemory>
        ensures { IfOk result (λ nodes. nodes ≡ root_alone now) }
    {
        let mut rows = Vec::with_capacity(alloc, 1)?;
        rows.push_reserved(Row {
            node: Node {
                body: Body::Directory(0, Names::new(alloc)),
                times: Times::all_at(now),
            },
            links: 0,
        });
        Ok(Nodes {
            alloc,
            rows,
            bytes: 0,
        })
    }

    /// A new node under a new name.
    pub(crate) fn add(&mut self, dir: u64, name: &str, node: Node) -> Result<(), AllocError>
        requires is_dir { kind_at self.old dir ≡ Some Kind.Directory }
        requires absent { entry_at self.old dir name.now ≡ None }
        requires fresh { IsFresh self.old dir node }
        requires few { length self.old < 65536 }
        requires room { total_bytes self.old + length (bytes_in node.body) ≤ 67108864 }
        ensures ok { OnOk result (self.new ≡ with_new self.old dir name.now node) }
        ensures err { OnErr result (self.new ≡ self.old) }
    {
        let size = node.body.bytes() as u64;
        let number = self.rows.len() as u64;
        self.rows.reserve(1)?;
        rows::put_name(&mut self.rows, self.alloc, dir, name, number)?;
        self.rows.push_reserved(Row { node, links: 1 });
        self.bytes += size;
        Ok(())
    }

    /// A new name for a file or a link.
    pub(crate) fn add_name(&mut self, dir: u64, name: &str, node: u64) -> Result<(), AllocError>
        requires is_dir { kind_at self.old dir ≡ Some Kind.Directory }
        requires absent { entry_at self.old dir name.now ≡ None }
        requires made { node < length self.old }
        requires no_dir { is_directory self.old node ≡ false }
        requires few { links_of self.old node + 1 < 2 ^ 64 }
        ensures ok { OnOk result (self.new ≡ with_name self.old dir name.now node) }
        ensures err { OnErr result (self.new ≡ self.old) }
    {
        rows::put_name(&mut self.rows, self.alloc, dir, name, node)?;
        rows::add_link(&mut self.rows, node);
        Ok(())
    }

    /// Without a name, which was the node's.
    pub(crate) fn take(&mut self, dir: u64, name: &str, node: u64)
        requires { entry_at self.old dir name.now ≡ Some node }
        ensures { self.new ≡ without_name self.old dir name.now }
    {
        rows::take_name(&mut self.rows, dir, name);
        rows::drop_link(&mut self.rows, node);
    }

    /// A node leaves its name for a new one.
    pub(crate) fn move_name(
        &mut self,
        from: u64,
        name: &str,
        node: u64,
        to: u64,
        to_name: &str,
    ) -> Result<(), AllocError>
        requires from { entry_at self.old from name.now ≡ Some node }
        requires is_dir { kind_at self.old to ≡ Some Kind.Directory }
        requires absent { entry_at self.old to to_name.now ≡ None }
        ensures ok { OnOk result (self.new ≡ moved self.old from name.now node to to_name.now None) }
        ensures err { OnErr result (self.new ≡ self.old) }
    {
        rows::move_name(&mut self.rows, self.alloc, from, name, node, to, to_name)?;
        Ok(())
    }

    /// A node leaves its name for that of another one.
    pub(crate) fn move_over(
        &mut self,
        from: u64,
        name: &str,
        node: u64,
        to: u64,
        to_name: &str,
        before: u64,
    )
        requires from { entry_at self.old from name.now ≡ Some node }
        requires is_dir { kind_at self.old to ≡ Some Kind.Directory }
        requires there { entry_at self.old to to_name.now ≡ Some before }
        ensures { self.new ≡ moved self.old from name.now node to to_name.now (Some before) }
    {
        rows::move_over(&mut self.rows, from, name, node, to, to_name, before);
    }

    /// Bytes over those of a file from a place on.
    #[tactic(auto, using(crate::proofs::SumFacts::bytes_part))]
    pub(crate) fn write_bytes(
        &mut self,
        file: u64,
        place: usize,
        more: &[u8],
    ) -> Result<(), AllocError>
        requires is_file { kind_at self.old file ≡ Some Kind.File }
        requires small { place + length more.now < 2 ^ 32 }
        requires room { total_bytes self.old + (place + length more.now - length (bytes_at self.old file)) ≤ 67108864 }
        ensures ok { OnOk result (self.new ≡ with_written self.old file place more.now) }
        ensures err { OnErr result (self.new ≡ self.old) }
    {
        let size = self.file_size(file);
        let end = place as u64 + more.len() as u64;
        rows::write_bytes(&mut self.rows, file, place, more)?;
        self.bytes += end.saturating_sub(size);
        Ok(())
    }

    /// A file's bytes cut to a size, or filled with zeros.
    #[tactic(auto, using(crate::proofs::SumFacts::bytes_part))]
    pub(crate) fn resize(&mut self, file: u64, size: usize) -> Result<(), AllocError>
        requires is_file { kind_at self.old file ≡ Some Kind.File }
        requires small { size < 2 ^ 32 }
        requires room { total_bytes self.old + (size - length (bytes_at self.old file)) ≤ 67108864 }
        ensures ok { OnOk result (self.new ≡ with_size self.old file size) }
        ensures err { OnErr result (self.new ≡ self.old) }
    {
        let before = self.file_size(file);
        rows::resize_file(&mut self.rows, file, size)?;
        self.bytes = self.bytes + size as u64 - before;
        Ok(())
    }

    /// A file with no bytes. It takes no memory, and is never refused.
    #[tactic(auto, using(crate::proofs::SumFacts::bytes_part))]
    pub fn empty(&mut self, file: u64)
        requires { kind_at self.old file ≡ Some Kind.File }
        ensures { self.new ≡ with_size self.old file 0 }
    {
        let before = self.file_size(file);
        rows::clear_file(&mut self.rows, file);
        self.bytes -= before;
    }

    /// Other times of a node for access and for the change of its bytes; `None` leaves one. It
    /// takes no memory, and is never refused.
    pub fn set_times(&mut self, node: u64, access: Option<Datetime>, modification: Option<Datetime>)
        requires { node < length self.old }
        ensures { self.new ≡ with_times self.old node access modification }
    {
        rows::set_times(&mut self.rows, node, access, modification);
    }
}
