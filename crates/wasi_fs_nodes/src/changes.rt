ghost use Rattle.std.specs.Prelude.{◌≡◌, ℕ, Bool, ◌+◌, ◌<◌, ◌≤◌, length, Some, None, Ok, Err, IfOk, OnOk};
ghost use Rattle.wasi_fs_nodes.specs.Nodes.{kind_at, bytes_at, entry_at, total_bytes, TellsBelow};
ghost use Rattle.wasi_fs_nodes.specs.Outcome.{Leaves, LeavesAlways};
ghost use Rattle.wasi_fs_nodes.specs.Changes.{may_make, made, new_file, new_directory, new_link, linked, unlinked, directory_removed, renamed, target_refusal, moved, limits_of, sized, nodes_after, wrote};
ghost use Rattle.wasi_fs_nodes.specs.Writes.{written_from};
ghost use Rattle.wasi_fs_nodes.specs.Climbs.{climbs};

use crate::content::Content;
use crate::names::Names;
use crate::node::{Body, Kind, Node, Times};
use crate::nodes::Nodes;
use crate::{At, StoreError};
use wasi_base::Text;
use wasi_clocks::Datetime;
use wasi_fs_types::ErrorCode;

/// Bytes of a file.
const FILE_LIMIT: u64 = 1_048_576;

/// Bytes of all files ever made, by their present sizes.
const TREE_LIMIT: u64 = 67_108_864;

/// Nodes ever made, the root among them.
const NODE_LIMIT: u64 = 65_536;

impl Nodes {
    /// Whether a new node of so many bytes may stand under a name. A directory and a link have none.
    ///
    /// # Errors
    ///
    /// The refusal that `make_file`, `make_directory` or `make_link` would answer.
    pub fn may_make(&self, dir: u64, name: &str, size: u64) -> Result<(), ErrorCode>
        ensures gives { result ≡ may_make self.now dir name.now size }
        ensures absent { OnOk result (entry_at self.now dir name.now ≡ None) }
        ensures few { OnOk result (length self.now < 65536) }
        ensures room { OnOk result (total_bytes self.now + size ≤ 67108864) }
    {
        if self.entry(dir, name).is_some() {
            return Err(ErrorCode::Exist);
        }
        if size > FILE_LIMIT {
            return Err(ErrorCode::FileTooLarge);
        }
        if self.is_removed(dir) {
            return Err(ErrorCode::NoEntry);
        }
        if self.len() >= NODE_LIMIT || self.bytes() + size > TREE_LIMIT {
            return Err(ErrorCode::InsufficientSpace);
        }
        Ok(())
    }

    /// A new file of these bytes under a name. The answer is its number.
    pub fn make_file(
        &mut self,
        dir: u64,
        name: &str,
        bytes: &[u8],
        now: Option<Datetime>,
    ) -> Result<u64, StoreError>
        requires { kind_at self.old dir ≡ Some Kind.Directory }
        ensures outcome { Leaves self.old self.new result (made self.old dir name.now (new_file bytes.now now)) }
        ensures next { IfOk result (λ number. number ≡ length self.old) }
    {
        if let Err(code) = self.may_make(dir, name, bytes.len() as u64) {
            return Err(StoreError::Code(code));
        }
        let Ok(content) = Content::copy_of(self.alloc, bytes) else {
            return Err(StoreError::OutOfMemory);
        };
        let node = Node {
            body: Body::File(content),
            times: Times::all_at(now),
        };
        let number = self.len();
        match self.add(dir, name, node) {
            Ok(()) => Ok(number),
            Err(_) => Err(StoreError::OutOfMemory),
        }
    }

    /// A new directory with no entries under a name. The answer is its number.
    pub fn make_directory(
        &mut self,
        dir: u64,
        name: &str,
        now: Option<Datetime>,
    ) -> Result<u64, StoreError>
        requires { kind_at self.old dir ≡ Some Kind.Directory }
        ensures outcome { Leaves self.old self.new result (made self.old dir name.now (new_directory dir now)) }
        ensures next { IfOk result (λ number. number ≡ length self.old) }
    {
        if let Err(code) = self.may_make(dir, name, 0) {
            return Err(StoreError::Code(code));
        }
        let node = Node {
            body: Body::Directory(dir, Names::new(self.alloc)),
            times: Times::all_at(now),
        };
        let number = self.len();
        match self.add(dir, name, node) {
            Ok(()) => Ok(number),
            Err(_) => Err(StoreError::OutOfMemory),
        }
    }

    /// A new link of this text under a name. The answer is its number.
    pub fn make_link(
        &mut self,
        dir: u64,
        name: &str,
        text: &str,
        now: Option<Datetime>,
    ) -> Result<u64, StoreError>
        requires { kind_at self.old dir ≡ Some Kind.Directory }
        ensures outcome { Leaves self.old self.new result (made self.old dir name.now (new_link text.now now)) }
        ensures next { IfOk result (λ number. number ≡ length self.old) }
    {
        if let Err(code) = self.may_make(dir, name, 0) {
            return Err(StoreError::Code(code));
        }
        let Ok(text) = Text::from_str(self.alloc, text) else {
            return Err(StoreError::OutOfMemory);
        };
        let node = Node {
            body: Body::Link(text),
            times: Times::all_at(now),
        };
        let number = self.len();
        match self.add(dir, name, node) {
            Ok(()) => Ok(number),
            Err(_) => Err(StoreError::OutOfMemory),
        }
    }

    /// One more name for a file or a link.
    pub fn link(&mut self, dir: u64, name: &str, node: u64) -> Result<(), StoreError>
        requires is_dir { kind_at self.old dir ≡ Some Kind.Directory }
        requires made { node < length self.old }
        ensures { Leaves self.old self.new result (linked self.old dir name.now node) }
    {
        if self.is_directory(node) {
            return Err(StoreError::Code(ErrorCode::NotPermitted));
        }
        if self.entry(dir, name).is_some() {
            return Err(StoreError::Code(ErrorCode::Exist));
        }
        if self.is_removed(dir) {
            return Err(StoreError::Code(ErrorCode::NoEntry));
        }
        if self.links(node) == u64::MAX {
            return Err(StoreError::OutOfMemory);
        }
        match self.add_name(dir, name, node) {
            Ok(()) => Ok(()),
            Err(_) => Err(StoreError::OutOfMemory),
        }
    }

    /// Takes away the name of a file or a link. The node stays, and keeps its bytes.
    pub fn unlink(&mut self, dir: u64, name: &str) -> Result<(), ErrorCode>
        ensures { LeavesAlways self.old self.new result (unlinked self.old dir name.now) }
    {
        let Some(node) = self.entry(dir, name) else {
            return Err(ErrorCode::NoEntry);
        };
        if self.is_directory(node) {
            return Err(ErrorCode::IsDirectory);
        }
        self.take(dir, name, node);
        Ok(())
    }

    /// Takes away the name of a directory that has no entries. The node stays.
    pub fn remove_directory(&mut self, dir: u64, name: &str) -> Result<(), ErrorCode>
        ensures { LeavesAlways self.old self.new result (directory_removed self.old dir name.now) }
    {
        let Some(node) = self.entry(dir, name) else {
            return Err(ErrorCode::NoEntry);
        };
        if !self.is_directory(node) {
            return Err(ErrorCode::NotDirectory);
        }
        if !self.has_no_names(node) {
            return Err(ErrorCode::NotEmpty);
        }
        self.take(dir, name, node);
        Ok(())
    }

    /// Why a node cannot take the place of what stands at the target.
    fn target_refusal(&self, node: u64, target: Option<u64>) -> Option<ErrorCode>
        ensures { result ≡ target_refusal self.now node target }
    {
        let Some(before) = target else { return None };
        match (self.is_directory(before), self.is_directory(node)) {
            (true, false) => Some(ErrorCode::IsDirectory),
            (true, true) => {
                if self.has_no_names(before) {
                    None
                } else {
                    Some(ErrorCode::NotEmpty)
                }
            }
            (false, true) => Some(ErrorCode::NotDirectory),
            (false, false) => None,
        }
    }

    /// A node takes a place, after all refusals.
    fn move_to(
        &mut self,
        from: u64,
        name: &str,
        node: u64,
        to: u64,
        to_name: &str,
        target: Option<u64>,
    ) -> Result<(), StoreError>
        requires from { entry_at self.old from name.now ≡ Some node }
        requires is_dir { kind_at self.old to ≡ Some Kind.Directory }
        requires target { target ≡ entry_at self.old to to_name.now }
        ensures { Leaves self.old self.new result (Ok (moved self.old from name.now node to to_name.now target)) }
    {
        match target {
            Some(before) => {
                self.move_over(from, name, node, to, to_name, before);
                Ok(())
            }
            None => match self.move_name(from, name, node, to, to_name) {
                Ok(()) => Ok(()),
                Err(_) => Err(StoreError::OutOfMemory),
            },
        }
    }

    /// A node leaves its name for another one, and takes the place of what stands there.
    pub fn rename(
        &mut self,
        from: u64,
        name: &str,
        to: u64,
        to_name: &str,
    ) -> Result<(), StoreError>
        requires { kind_at self.old to ≡ Some Kind.Directory }
        ensures { (below : ℕ → ℕ → Bool) → TellsBelow self.old below → Leaves self.old self.new result (renamed below self.old from name.now to to_name.now) }
    {
        let _ = self.root();
        self.rename_node(from, name, to, to_name)
    }

    fn rename_node(
        &mut self,
        from: u64,
        name: &str,
        to: u64,
        to_name: &str,
    ) -> Result<(), StoreError>
        requires { kind_at self.old to ≡ Some Kind.Directory }
        ensures { Leaves self.old self.new result (renamed (climbs self.old) self.old from name.now to to_name.now) }
    {
        let Some(node) = self.entry(from, name) else {
            return Err(StoreError::Code(ErrorCode::NoEntry));
        };
        let target = self.entry(to, to_name);
        if target == Some(node) {
            return Ok(());
        }
        if self.is_directory(node) && self.is_below(node, to) {
            return Err(StoreError::Code(ErrorCode::Invalid));
        }
        if let Some(code) = self.target_refusal(node, target) {
            return Err(StoreError::Code(code));
        }
        if self.is_removed(to) {
            return Err(StoreError::Code(ErrorCode::NoEntry));
        }
        self.move_to(from, name, node, to, to_name, target)
    }

    /// Cuts a file to a size, or fills it with zeros.
    pub fn set_size(&mut self, file: u64, size: u64) -> Result<(), StoreError>
        requires { kind_at self.old file ≡ Some Kind.File }
        ensures { Leaves self.old self.new result (sized self.old file size) }
    {
        if size > FILE_LIMIT {
            return Err(StoreError::Code(ErrorCode::FileTooLarge));
        }
        let growth = size.saturating_sub(self.file_size(file));
        if self.bytes() + growth > TREE_LIMIT {
            return Err(StoreError::Code(ErrorCode::InsufficientSpace));
        }
        match self.resize(file, size as usize) {
            Ok(()) => Ok(()),
            Err(_) => Err(StoreError::OutOfMemory),
        }
    }

    /// Writes all the bytes, with zeros in a gap before them. A write of none changes nothing.
    /// Memory can be wanting only where no limit would be passed.
    pub fn write(&mut self, file: u64, at: At, bytes: &[u8]) -> Result<(), StoreError>
        requires { kind_at self.old file ≡ Some Kind.File }
        ensures { Leaves self.old self.new result (wrote self.old file at bytes.now) }
    {
        if bytes.is_empty() {
            return Ok(());
        }
        let place = match at {
            At::End => self.file_size(file),
            At::Offset(place) => place,
        };
        self.write_from(file, place, bytes)
    }

    fn write_from(&mut self, file: u64, place: u64, bytes: &[u8]) -> Result<(), StoreError>
        requires { kind_at self.old file ≡ Some Kind.File }
        ensures { Leaves self.old self.new result (nodes_after self.old file (written_from (Some (limits_of self.old)) (bytes_at self.old file) place bytes.now)) }
    {
        let length = bytes.len() as u64;
        if place > FILE_LIMIT || length > FILE_LIMIT - place {
            return Err(StoreError::Code(ErrorCode::FileTooLarge));
        }
        let growth = (place + length).saturating_sub(self.file_size(file));
        if self.bytes() + growth > TREE_LIMIT {
            return Err(StoreError::Code(ErrorCode::InsufficientSpace));
        }
        match self.write_bytes(file, place as usize, bytes) {
            Ok(()) => Ok(()),
            Err(_) => Err(StoreError::OutOfMemory),
        }
    }
}
