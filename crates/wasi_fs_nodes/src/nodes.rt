ghost use Rattle.std.specs.Prelude.{◌≡◌, ◌<◌, ◌≤◌, length, take, drop, Some, None, IfOk, OnOk, IfSome, IsSome, MatchOption};
ghost use Rattle.std.specs.Map.{keys_of};
ghost use Rattle.wasi_fs_nodes.specs.Names.{IsAscending, has_no_names};
ghost use Rattle.wasi_fs_nodes.specs.Nodes.{names_at, kind_at, is_directory, entry_at, parent_at, links_of, total_bytes, is_removed, bytes_at, text_at};
ghost use Rattle.wasi_fs_nodes.specs.Shape.{IsSound};
ghost use Rattle.wasi_fs_nodes.specs.Stats.{stat_at, pairs_of};
ghost use Rattle.wasi_fs_nodes.specs.Climbs.{climbs};

use crate::node::Kind;
use crate::rows::Row;
use crate::stats::{Entry, Stat};
use std::alloc::Global;
use std::marker::Model;
use wasi_base::OutOfMemory;

/// The nodes of a tree by number, which contracts see as a list. The root is number 0, and a new
/// node has the next number; a number is never given twice. How many entries name each node, and
/// the sum of the files' sizes, are kept, so that no call goes over all nodes.
#[derive(Drop)]
pub struct Nodes {
    pub(crate) alloc: Global,
    pub(crate) rows: Vec<Row>,
    pub(crate) bytes: u64,
}

impl Model for Nodes {
    ghost use Rattle.std.specs.Prelude.{List};
    ghost use Rattle.wasi_fs_nodes.specs.declared.node.Node.{Node};

    ghost Value = { List Node };

    ghost use Rattle.wasi_fs_nodes.specs.Counts.{nodes_in, IsCounted};

    ghost view = { λ a. nodes_in a.rows.items };

    ghost invariant = { λ a. IsCounted a.rows.items a.bytes };
}

impl Nodes {
    /// How many nodes were ever made, the root among them: at most 65536.
    pub fn len(&self) -> u64
        ensures { result ≡ length self.now }
    {
        self.rows.len() as u64
    }

    /// The bytes of all files ever made, by their present sizes: at most 67108864.
    pub fn bytes(&self) -> u64
        ensures sum { result ≡ total_bytes self.now }
        ensures most { result ≤ 67108864 }
    {
        self.bytes
    }

    /// The number of the root. The tree is sound: each entry names a node that was made, and each
    /// directory stands in the one that it names as its parent, and in no other.
    pub fn root(&self) -> u64
        ensures first { result ≡ 0 }
        ensures sound { IsSound self.now }
    {
        let _ = &self.rows;
        0
    }

    /// What the node of a number is; `None` where none was made.
    pub fn kind(&self, node: u64) -> Option<Kind>
        ensures { result ≡ kind_at self.now node }
    {
        match self.rows.get(node as usize) {
            None => None,
            Some(row) => Some(row.node.body.kind()),
        }
    }

    pub fn is_directory(&self, node: u64) -> bool
        ensures { result ≡ is_directory self.now node }
    {
        match self.kind(node) {
            Some(Kind::Directory) => true,
            Some(Kind::File) | Some(Kind::Link) | None => false,
        }
    }

    fn find(&self, dir: u64, name: &str) -> Option<u64>
        ensures { result ≡ entry_at self.now dir name.now }
    {
        match self.rows.get(dir as usize) {
            None => None,
            Some(row) => row.node.body.find(name),
        }
    }

    /// The node that a name in a directory names. It costs the logarithm of the directory's names.
    pub fn entry(&self, dir: u64, name: &str) -> Option<u64>
        ensures is { result ≡ entry_at self.now dir name.now }
        ensures made { IfSome result (λ node. node < length self.now) }
    {
        let _ = &self.rows;
        self.find(dir, name)
    }

    /// Whether a directory has no names.
    pub fn has_no_names(&self, dir: u64) -> bool
        ensures { result ≡ has_no_names (names_at self.now dir) }
    {
        match self.rows.get(dir as usize) {
            None => true,
            Some(row) => row.node.body.has_no_names(),
        }
    }

    /// The directory that a directory stands in, which for the root is itself. A removed directory
    /// keeps the one that it stood in.
    pub fn parent(&self, dir: u64) -> u64
        ensures { result ≡ parent_at self.now dir }
    {
        match self.rows.get(dir as usize) {
            None => 0,
            Some(row) => row.node.body.parent(),
        }
    }

    /// How many entries name a node.
    pub fn links(&self, node: u64) -> u64
        ensures count { result ≡ links_of self.now node }
        ensures made { 0 < result → node < length self.now }
    {
        match self.rows.get(node as usize) {
            None => 0,
            Some(row) => row.links,
        }
    }

    /// Whether no entry names a directory any more. The root is never removed.
    pub fn is_removed(&self, dir: u64) -> bool
        ensures { result ≡ is_removed self.now dir }
    {
        dir != 0 && self.links(dir) == 0
    }

    /// Whether a directory is another one, or lies below it: goes up from it by the directories
    /// that have it as an entry. It costs the depth.
    pub(crate) fn is_below(&self, top: u64, dir: u64) -> bool
        ensures { result ≡ climbs self.now top dir }
    {
        let mut here = dir;
        for _ in 0..self.len() {
            if here == top {
                return true;
            }
            if self.links(here) == 0 {
                return false;
            }
            here = self.parent(here);
        }
        false
    }

    /// How many bytes a file has; 0 for what is no file.
    pub fn file_size(&self, file: u64) -> u64
        ensures { result ≡ length (bytes_at self.now file) }
    {
        match self.rows.get(file as usize) {
            None => 0,
            Some(row) => row.node.body.bytes() as u64,
        }
    }

    /// Bytes of a file from a place on, as many as the room, none past the end, into the front of
    /// `buf`. The answer is how many. What stands behind them in `buf` stays.
    pub fn read(&self, file: u64, offset: u64, buf: &mut [u8]) -> usize
        ensures within { result ≤ length buf.new }
        ensures given { take result buf.new ≡ take (length buf.old) (drop offset (bytes_at self.now file)) }
        ensures behind { drop result buf.new ≡ drop result buf.old }
    {
        match self.rows.get(file as usize) {
            None => 0,
            Some(row) => row.node.body.read_at(offset, buf),
        }
    }

    /// The text of a link; `None` for what is no link.
    pub fn link_text(&self, node: u64) -> Option<&str>
        ensures { MatchOption result (text_at self.now node ≡ None) (λ text. text_at self.now node ≡ Some text.now) }
    {
        match self.rows.get(node as usize) {
            None => None,
            Some(row) => row.node.body.text(),
        }
    }

    /// What is told of a node; `None` exactly where none was made.
    #[tactic(auto, using(crate::proofs::NodeFacts::made_told))]
    pub fn stat(&self, node: u64) -> Option<Stat>
        ensures is { result ≡ stat_at self.now node }
        ensures always { node < length self.now → IsSome result }
    {
        match self.rows.get(node as usize) {
            None => None,
            Some(row) => Some(Stat {
                kind: row.node.body.kind(),
                links: if node == 0 { 1 } else { row.links },
                size: row.node.body.size() as u64,
                times: row.node.times,
            }),
        }
    }

    /// A copy of the names in a directory, ascending by their bytes, each with its node. A file and
    /// a link have none.
    #[tactic(auto, using(crate::proofs::EntryFacts::no_names_ascend))]
    pub fn list(&self, dir: u64) -> Result<Vec<Entry>, OutOfMemory>
        ensures entries { IfOk result (λ entries. pairs_of entries.items ≡ names_at self.now dir) }
        ensures ascending { IfOk result (λ entries. IsAscending (keys_of (pairs_of entries.items))) }
    {
        match self.rows.get(dir as usize) {
            None => Ok(Vec::new(self.alloc)),
            Some(row) => row.node.body.list(self.alloc),
        }
    }
}
