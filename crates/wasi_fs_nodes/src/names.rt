ghost use Rattle.std.specs.Prelude.{◌≡◌, [], IfOk, OnOk, OnErr, IsTrue, ◌↔◌};
ghost use Rattle.std.specs.Map.{keys_of};
ghost use Rattle.wasi_fs_nodes.specs.Names.{IsAscending, has_no_names, entry_of, with_entry, without_entry, with_other};
ghost use Rattle.wasi_fs_nodes.specs.Stats.{pairs_of};

use crate::stats::Entry;
use std::alloc::{AllocError, Global};
use std::collections::BTreeMap;
use std::marker::Model;
use wasi_base::{OutOfMemory, Text};

/// The names in a directory, each with its node. Contracts see them as a list, ascending by the
/// names' bytes.
#[derive(Drop)]
pub struct Names {
    map: BTreeMap<String, u64>,
}

impl Model for Names {
    ghost use Rattle.std.specs.Prelude.{ℕ, List};
    ghost use Rattle.wasi_fs_nodes.specs.Names.{entries_of_map};

    ghost Value = { List (List ℕ × ℕ) };

    ghost view = { λ a. entries_of_map a.map.entries };
}

impl Names {
    /// No names. It takes no memory.
    pub(crate) fn new(alloc: Global) -> Names
        ensures { result ≡ [] }
    {
        Names {
            map: BTreeMap::new(alloc),
        }
    }

    /// The node of a name.
    pub(crate) fn find(&self, name: &str) -> Option<u64>
        ensures { result ≡ entry_of self.now name.now }
    {
        self.map.get(name).copied()
    }

    /// A node under a name, which had none.
    pub(crate) fn put(&mut self, alloc: Global, name: &str, node: u64) -> Result<(), AllocError>
        ensures ok { OnOk result (self.new ≡ with_entry self.old name.now node) }
        ensures err { OnErr result (self.new ≡ self.old) }
    {
        let key = String::from_str(alloc, name)?;
        self.map.insert(key, node)?;
        Ok(())
    }

    /// Another node under a name that is there.
    pub(crate) fn replace(&mut self, name: &str, node: u64)
        ensures { self.new ≡ with_other self.old name.now node }
    {
        if let Some(place) = self.map.get_mut(name) {
            *place = node;
        }
    }

    /// Without a name.
    pub(crate) fn take(&mut self, name: &str)
        ensures { self.new ≡ without_entry self.old name.now }
    {
        let _ = self.map.remove(name);
    }

    /// A copy of the names in their order, each with its node.
    pub(crate) fn list(&self, alloc: Global) -> Result<Vec<Entry>, OutOfMemory>
        ensures entries { IfOk result (λ entries. pairs_of entries.items ≡ self.now) }
        ensures ascending { IfOk result (λ entries. IsAscending (keys_of (pairs_of entries.items))) }
    {
        let mut entries = Vec::with_capacity(alloc, self.map.len())?;
        for (name, node) in self.map.iter() {
            let name = Text::from_str(alloc, name.as_str())?;
            entries.push(Entry { name, node: *node })?;
        }
        Ok(entries)
    }

    fn is_empty(&self) -> bool
        ensures { IsTrue result ↔ (self.now ≡ []) }
    {
        self.map.is_empty()
    }

    /// Whether there are none.
    pub(crate) fn has_none(&self) -> bool
        ensures { result ≡ has_no_names self.now }
    {
        self.is_empty()
    }
}
