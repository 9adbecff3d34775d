ghost use Rattle.std.specs.Prelude.{◌≡◌, ◌+◌, ◌-◌, ◌<◌, ◌≤◌, ◌^◌, length, take, drop, None, Some, IfOk, OnOk, OnErr, MatchOption};
ghost use Rattle.std.specs.Map.{keys_of};
ghost use Rattle.wasi_fs_nodes.specs.Names.{IsAscending, entry_of, has_no_names};
ghost use Rattle.wasi_fs_nodes.specs.Nodes.{kind_of, names_in, parent_in, bytes_in, text_in, size_in, all_at, times_with};
ghost use Rattle.wasi_fs_nodes.specs.Stats.{pairs_of};
ghost use Rattle.wasi_fs_nodes.specs.Content.{written};
ghost use Rattle.wasi_fs_nodes.specs.Bodies.{body_with_name, body_with_other, body_with_parent, body_without_name, body_with_bytes, body_resized};

use crate::content::Content;
use crate::names::Names;
use crate::stats::Entry;
use std::alloc::{AllocError, Global};
use wasi_base::{OutOfMemory, Text};
use wasi_clocks::Datetime;

/// What a node is.
#[derive(Clone, Copy, PartialEq, Eq, Debug, Drop)]
pub enum Kind {
    File,
    Directory,
    Link,
}

/// What a node holds.
#[derive(Drop)]
pub enum Body {
    File(Content),
    /// The number of the directory that this one stands in, the root in itself, and its names.
    Directory(u64, Names),
    Link(Text),
}

/// A node's three times, each `None` where it is not known.
#[derive(Clone, Copy, PartialEq, Eq, Debug, Drop)]
pub struct Times {
    pub access: Option<Datetime>,
    /// Of the last change of the bytes.
    pub modification: Option<Datetime>,
    pub status_change: Option<Datetime>,
}

/// A file, a directory or a link, with its times.
#[derive(Drop)]
pub struct Node {
    pub body: Body,
    pub times: Times,
}

impl Times {
    /// The three times of a node that is made now.
    pub fn all_at(now: Option<Datetime>) -> Times
        ensures { result ≡ all_at now }
    {
        Times {
            access: now,
            modification: now,
            status_change: now,
        }
    }

    /// With other times for access and for the change of the bytes; `None` leaves one.
    pub(crate) fn with(self, access: Option<Datetime>, modification: Option<Datetime>) -> Times
        ensures { result ≡ times_with access modification self }
    {
        Times {
            access: access.or(self.access),
            modification: modification.or(self.modification),
            status_change: self.status_change,
        }
    }
}

impl Body {
    pub(crate) fn kind(&self) -> Kind
        ensures { result ≡ kind_of self.now }
    {
        match self {
            Body::File(_) => Kind::File,
            Body::Directory(_, _) => Kind::Directory,
            Body::Link(_) => Kind::Link,
        }
    }

    /// The node of a name; a file and a link have no names.
    pub(crate) fn find(&self, name: &str) -> Option<u64>
        ensures { result ≡ entry_of (names_in self.now) name.now }
    {
        match self {
            Body::File(_) => None,
            Body::Directory(_, names) => names.find(name),
            Body::Link(_) => None,
        }
    }

    pub(crate) fn has_no_names(&self) -> bool
        ensures { result ≡ has_no_names (names_in self.now) }
    {
        match self {
            Body::File(_) => true,
            Body::Directory(_, names) => names.has_none(),
            Body::Link(_) => true,
        }
    }

    /// A copy of the names in their order; a file and a link have none.
    #[tactic(auto, using(crate::proofs::EntryFacts::no_names_ascend))]
    pub(crate) fn list(&self, alloc: Global) -> Result<Vec<Entry>, OutOfMemory>
        ensures entries { IfOk result (λ entries. pairs_of entries.items ≡ names_in self.now) }
        ensures ascending { IfOk result (λ entries. IsAscending (keys_of (pairs_of entries.items))) }
    {
        match self {
            Body::File(_) => Ok(Vec::new(alloc)),
            Body::Directory(_, names) => names.list(alloc),
            Body::Link(_) => Ok(Vec::new(alloc)),
        }
    }

    /// The directory that a directory stands in, and 0 for others.
    pub(crate) fn parent(&self) -> u64
        ensures { result ≡ parent_in self.now }
    {
        match self {
            Body::File(_) => 0,
            Body::Directory(parent, _) => *parent,
            Body::Link(_) => 0,
        }
    }

    /// The bytes of a file or of a link's text.
    pub(crate) fn size(&self) -> usize
        ensures { result ≡ size_in self.now }
    {
        match self {
            Body::File(bytes) => bytes.len(),
            Body::Directory(_, _) => 0,
            Body::Link(text) => text.len(),
        }
    }

    /// The bytes that count for the tree's limit: those of a file.
    pub(crate) fn bytes(&self) -> usize
        ensures { result ≡ length (bytes_in self.now) }
    {
        match self {
            Body::File(bytes) => bytes.len(),
            Body::Directory(_, _) => 0,
            Body::Link(_) => 0,
        }
    }

    /// The text of a link.
    pub(crate) fn text(&self) -> Option<&str>
        ensures { MatchOption result (text_in self.now ≡ None) (λ text. text_in self.now ≡ Some text.now) }
    {
        match self {
            Body::File(_) => None,
            Body::Directory(_, _) => None,
            Body::Link(text) => Some(text.as_str()),
        }
    }

    /// Bytes of a file from a place on, as many as the room. The answer is how many.
    pub(crate) fn read_at(&self, offset: u64, buf: &mut [u8]) -> usize
        ensures within { result ≤ length buf.new }
        ensures given { take result buf.new ≡ take (length buf.old) (drop offset (bytes_in self.now)) }
        ensures behind { drop result buf.new ≡ drop result buf.old }
    {
        match self {
            Body::File(bytes) => bytes.read_at(offset, buf),
            Body::Directory(_, _) => 0,
            Body::Link(_) => 0,
        }
    }

    /// A node under a name, which had none.
    pub(crate) fn put(&mut self, alloc: Global, name: &str, node: u64) -> Result<(), AllocError>
        ensures ok { OnOk result (self.new ≡ body_with_name name.now node self.old) }
        ensures err { OnErr result (self.new ≡ self.old) }
    {
        match self {
            Body::File(_) => Ok(()),
            Body::Directory(_, names) => names.put(alloc, name, node),
            Body::Link(_) => Ok(()),
        }
    }

    /// Another node under a name that is there.
    pub(crate) fn replace(&mut self, name: &str, node: u64)
        ensures { self.new ≡ body_with_other name.now node self.old }
    {
        match self {
            Body::File(_) => {}
            Body::Directory(_, names) => names.replace(name, node),
            Body::Link(_) => {}
        }
    }

    /// Standing in another directory.
    pub(crate) fn set_parent(&mut self, dir: u64)
        ensures { self.new ≡ body_with_parent dir self.old }
    {
        match self {
            Body::File(_) => {}
            Body::Directory(parent, _) => *parent = dir,
            Body::Link(_) => {}
        }
    }

    /// Without a name.
    pub(crate) fn take(&mut self, name: &str)
        ensures { self.new ≡ body_without_name name.now self.old }
    {
        match self {
            Body::File(_) => {}
            Body::Directory(_, names) => names.take(name),
            Body::Link(_) => {}
        }
    }

    /// Bytes over those of a file from a place on.
    pub(crate) fn write_at(&mut self, place: usize, more: &[u8]) -> Result<(), AllocError>
        requires { place + length more.now < 2 ^ 32 }
        ensures ok { OnOk result (self.new ≡ body_with_bytes (written (bytes_in self.old) place more.now) self.old) }
        ensures err { OnErr result (self.new ≡ self.old) }
    {
        match self {
            Body::File(bytes) => bytes.write_at(place, more),
            Body::Directory(_, _) => Ok(()),
            Body::Link(_) => Ok(()),
        }
    }

    /// A file's bytes cut to a size, or filled with zeros.
    pub(crate) fn resize(&mut self, size: usize) -> Result<(), AllocError>
        ensures ok { OnOk result (self.new ≡ body_resized size self.old) }
        ensures err { OnErr result (self.new ≡ self.old) }
    {
        match self {
            Body::File(bytes) => bytes.resize(size),
            Body::Directory(_, _) => Ok(()),
            Body::Link(_) => Ok(()),
        }
    }

    /// A file with no bytes. It takes no memory.
    pub(crate) fn clear(&mut self)
        ensures { self.new ≡ body_resized 0 self.old }
    {
        match self {
            Body::File(bytes) => bytes.clear(),
            Body::Directory(_, _) => {}
            Body::Link(_) => {}
        }
    }
}
