ghost use Rattle.std.specs.Prelude.{◌≡◌, IfOk};
ghost use Rattle.wasi_fs_nodes.specs.Nodes.{kind_at, names_at};
ghost use Rattle.wasi_fs_nodes.specs.Stats.{pairs_of};
ghost use Rattle.wasi_fs.specs.Listing.{Ascend, AreKnown, type_of_node, entries_told, listed, IsMapped};
ghost use Rattle.wasi_fs.specs.Outcome.{Meets};
ghost use Rattle.wasi_fs.specs.Trees.{IsDirOf, KeepsDescriptors};

use crate::descriptor::Dir;
use crate::entries::{DirectoryEntries, DirectoryEntry};
use crate::look_ups::type_of;
use crate::tree::Tree;
use std::alloc::{AllocError, Global};
use wasi_base::TrappableError;
use wasi_fs_nodes::{Entry, Kind, Nodes, StoreError};
use wasi_fs_types::{CwdText, DescriptorType, ErrorCode, FilesystemResult};

/// The type of a node; each node that an entry names was made.
fn type_of_node(kind: Option<Kind>) -> DescriptorType
    ensures { result ≡ type_of_node kind }
{
    match kind {
        Some(kind) => type_of(kind),
        None => DescriptorType::Unknown,
    }
}

/// The entries of a directory, in their order.
fn entries_of(nodes: &Nodes, alloc: Global, dir: u64) -> Result<Vec<DirectoryEntry>, AllocError>
    ensures entries { IfOk result (λ entries. entries.items ≡ entries_told nodes.now (names_at nodes.now dir)) }
    ensures ascending { IfOk result (λ entries. Ascend entries.items) }
    ensures known { IfOk result (λ entries. AreKnown entries.items) }
{
    let _ = nodes.root();
    match nodes.list(dir) {
        Ok(names) => told(nodes, alloc, names),
        Err(_) => Err(AllocError),
    }
}

// these names, each with the type of its node
fn told(nodes: &Nodes, alloc: Global, names: Vec<Entry>) -> Result<Vec<DirectoryEntry>, AllocError>
    ensures { IfOk result (λ entries. entries.items ≡ entries_told nodes.now (pairs_of names.items)) }
{
    let mut entries = Vec::with_capacity(alloc, names.len())?;
    for entry in names {
        entries.push(DirectoryEntry {
            type_: type_of_node(nodes.kind(entry.node)),
            name: entry.name,
        })?;
    }
    Ok(entries)
}

/// The entry of a name in bytes.
///
/// # Errors
///
/// `Code(IllegalByteSequence)` exactly for a name that is not UTF-8, and no other code.
pub fn map_dir_entry(
    alloc: Global,
    name: &[u8],
    ty: DescriptorType,
) -> Result<DirectoryEntry, StoreError>
    ensures { IsMapped name.now ty result }
{
    let Ok(name) = str::from_utf8(name) else {
        return Err(StoreError::Code(ErrorCode::IllegalByteSequence));
    };
    match CwdText::from_str(alloc, name) {
        Ok(name) => Ok(DirectoryEntry { type_: ty, name }),
        Err(_) => Err(StoreError::OutOfMemory),
    }
}

impl Tree {
    /// The entries of a directory, for its stream, ascending by their names' bytes, each with a type
    /// that is known.
    ///
    /// # Errors
    ///
    /// The code of the planned fault, if one is planned, which is then gone and counted; no other.
    pub fn list(&mut self, dir: &Dir) -> FilesystemResult<DirectoryEntries>
        requires { IsDirOf self.old dir.now }
        ensures meets { Meets self.old self.new result (listed self.old dir.now) }
        ensures ascending { IfOk result (λ entries. Ascend entries) }
        ensures known { IfOk result (λ entries. AreKnown entries) }
        ensures kept { KeepsDescriptors self.old self.new }
    {
        if let Some(kind) = self.planned() {
            self.meet_fault();
            return Err(TrappableError::Normal(ErrorCode::from(kind)));
        }
        match entries_of(self.nodes(), self.alloc(), dir.node) {
            Ok(entries) => Ok(DirectoryEntries::new(entries)),
            Err(_) => Err(TrappableError::OutOfMemory),
        }
    }
}
