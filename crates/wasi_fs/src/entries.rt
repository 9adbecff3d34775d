ghost use Rattle.std.specs.Prelude.{◌≡◌, Ok, map};
ghost use Rattle.std.specs.Iterator.{YieldsFirst, item_count};

use std::marker::Model;
use std::vec::IntoIter;
use wasi_fs_types::{CwdText, DescriptorType, ErrorCode};

/// A name in a directory, with the type of its node.
#[derive(Drop)]
pub struct DirectoryEntry {
    pub type_: DescriptorType,
    pub name: CwdText,
}

/// The entries of a directory as they were when it was listed, ascending by their names' bytes.
/// Contracts see those that are still to come.
#[derive(Drop)]
pub struct DirectoryEntries {
    entries: IntoIter<DirectoryEntry>,
}

impl Model for DirectoryEntries {
    ghost use Rattle.std.specs.Prelude.{List};
    ghost use Rattle.std.specs.Vec.Iter.{into_iter_items};
    ghost use Rattle.wasi_fs.specs.declared.entries.DirectoryEntry.{DirectoryEntry};

    ghost Value = { List DirectoryEntry };

    ghost view = { λ listing. into_iter_items listing.entries };
}

impl DirectoryEntries {
    pub(crate) fn new(entries: Vec<DirectoryEntry>) -> DirectoryEntries
        ensures { result ≡ entries.items }
    {
        DirectoryEntries {
            entries: entries.into_iter(),
        }
    }
}

impl Iterator for DirectoryEntries {
    type Item = Result<DirectoryEntry, ErrorCode>;

    ghost next_gives = { YieldsFirst (λ listing. map (λ entry. Ok entry) listing) };

    ghost remaining = { item_count (λ listing. listing) };

    fn next(&mut self) -> Option<Result<DirectoryEntry, ErrorCode>> {
        match self.entries.next() {
            Some(entry) => Some(Ok(entry)),
            None => None,
        }
    }
}
