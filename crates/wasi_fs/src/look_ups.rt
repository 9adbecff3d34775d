ghost use Rattle.std.specs.Prelude.{◌≡◌, ◌<◌, length, cond, Ok, IfOk, IsOk, option_map};
ghost use Rattle.std.specs.Option.{ok_or};
ghost use Rattle.wasi_fs.specs.Flags.{follows, flags_of_mode, flags_of_perms};
ghost use Rattle.wasi_fs.specs.LookUps.{found_at, advised, flags_in, type_in, type_of, stat_told, stat_of, stat_found, link_read, is_same, hash_of, hash_found};
ghost use Rattle.wasi_fs.specs.Outcome.{told, Answers};
ghost use Rattle.wasi_fs.specs.Trees.{IsOf, IsOfIfHere, IsDirOf, as_directory, node_in};

use crate::descriptor::{Descriptor, Dir};
use crate::outcome::told;
use crate::tree::Tree;
use bitflags::Flags;
use std::alloc::Global;
use wasi_base::TrappableError;
use wasi_fs_nodes::{Kind, Stat};
use wasi_fs_paths::find;
use wasi_fs_types::{
    Advice, CwdText, DescriptorFlags, DescriptorStat, DescriptorType, ErrorCode, FilesystemResult,
    FsPerms, MetadataHashValue, OpenMode, PathFlags,
};

/// These flags where they are asked for, else none.
fn flags_if(asked: bool, flags: DescriptorFlags) -> DescriptorFlags
    ensures { result.0 ≡ cond asked flags.0 0 }
{
    if asked {
        flags
    } else {
        DescriptorFlags::empty()
    }
}

/// The flags of a file that is open.
fn flags_of_mode(mode: OpenMode) -> DescriptorFlags
    ensures { result ≡ flags_of_mode mode }
{
    let read = flags_if(mode.contains(OpenMode::READ), DescriptorFlags::READ);
    let write = flags_if(mode.contains(OpenMode::WRITE), DescriptorFlags::WRITE);
    read.union(write)
}

/// The flags of a directory that is open.
fn flags_of_perms(perms: FsPerms) -> DescriptorFlags
    ensures { result ≡ flags_of_perms perms }
{
    match perms {
        FsPerms::ReadOnly => DescriptorFlags::READ,
        FsPerms::ReadWrite => DescriptorFlags::READ.union(DescriptorFlags::MUTATE_DIRECTORY),
    }
}

/// The type of a node.
pub(crate) fn type_of(kind: Kind) -> DescriptorType
    ensures { result ≡ type_of kind }
{
    match kind {
        Kind::File => DescriptorType::RegularFile,
        Kind::Directory => DescriptorType::Directory,
        Kind::Link => DescriptorType::SymbolicLink,
    }
}

fn stat_told(stat: Stat) -> DescriptorStat
    ensures { result ≡ stat_told stat }
{
    DescriptorStat {
        type_: type_of(stat.kind),
        link_count: stat.links,
        size: stat.size,
        data_access_timestamp: stat.times.access,
        data_modification_timestamp: stat.times.modification,
        status_change_timestamp: stat.times.status_change,
    }
}

/// A copy of a text.
fn copy_of(alloc: Global, text: &str) -> FilesystemResult<CwdText>
    ensures { Answers result (Ok text.now) }
{
    CwdText::from_str(alloc, text).map_err(|_| TrappableError::OutOfMemory)
}

impl Tree {
    /// The directory of this tree, where the descriptor is one.
    pub(crate) fn directory(&self, at: &Descriptor) -> Result<Dir, ErrorCode>
        requires { IsOf self.now at.now }
        ensures is { result ≡ as_directory at.now }
        ensures of_tree { IfOk result (λ dir. IsDirOf self.now dir) }
    {
        match at {
            Descriptor::File(_) => Err(ErrorCode::NotDirectory),
            Descriptor::Dir(dir) => Ok(*dir),
        }
    }

    /// The number of the node that a path names below a descriptor.
    fn find_at(&self, at: &Descriptor, follow: bool, path: &str) -> Result<u64, ErrorCode>
        requires { IsOf self.now at.now }
        ensures is { result ≡ found_at self.now.nodes at.now follow path.now }
        ensures made { IfOk result (λ n. n < length self.now.nodes) }
    {
        match self.directory(at) {
            Ok(dir) => find(self.nodes(), dir.node, follow, path),
            Err(code) => Err(code),
        }
    }

    /// How a file will be used. It changes nothing.
    ///
    /// # Errors
    ///
    /// `BadDescriptor` for a directory.
    pub fn advise(
        &self,
        at: &Descriptor,
        offset: u64,
        length: u64,
        advice: Advice,
    ) -> FilesystemResult<()>
        requires { IsOf self.now at.now }
        ensures { result ≡ told (advised at.now) }
    {
        let _ = (offset, length, advice);
        match at.as_file() {
            Ok(_) => Ok(()),
            Err(code) => Err(TrappableError::Normal(code)),
        }
    }

    /// The flags that a descriptor has: what it was opened for, and for a directory whether changes
    /// may be made below it.
    pub fn get_flags(&self, at: &Descriptor) -> FilesystemResult<DescriptorFlags>
        requires { IsOf self.now at.now }
        ensures { result ≡ Ok (flags_in at.now) }
    {
        match at {
            Descriptor::File(file) => Ok(flags_of_mode(file.mode)),
            Descriptor::Dir(dir) => Ok(flags_of_perms(dir.perms)),
        }
    }

    pub fn get_type(&self, at: &Descriptor) -> FilesystemResult<DescriptorType>
        requires { IsOf self.now at.now }
        ensures { result ≡ Ok (type_in at.now) }
    {
        match at {
            Descriptor::File(_) => Ok(DescriptorType::RegularFile),
            Descriptor::Dir(_) => Ok(DescriptorType::Directory),
        }
    }

    /// There is nothing to wait for in memory.
    pub fn sync(&self, at: &Descriptor) -> FilesystemResult<()>
        requires { IsOf self.now at.now }
        ensures { result ≡ Ok tt }
    {
        let _ = at;
        Ok(())
    }

    /// There is nothing to wait for in memory.
    pub fn sync_data(&self, at: &Descriptor) -> FilesystemResult<()>
        requires { IsOf self.now at.now }
        ensures { result ≡ Ok tt }
    {
        let _ = at;
        Ok(())
    }

    fn stat_of(&self, node: u64) -> Result<DescriptorStat, ErrorCode>
        ensures is { result ≡ stat_of self.now.nodes node }
        ensures always { node < length self.now.nodes → IsOk result }
    {
        match self.nodes().stat(node) {
            Some(stat) => Ok(stat_told(stat)),
            None => Err(ErrorCode::NoEntry),
        }
    }

    /// What is known of a descriptor's node. It is never refused.
    #[tactic(auto, using(crate::proofs::MadeFacts::node_made))]
    pub fn stat(&self, at: &Descriptor) -> FilesystemResult<DescriptorStat>
        requires { IsOf self.now at.now }
        ensures is { result ≡ told (stat_of self.now.nodes (node_in at.now)) }
        ensures always { IsOk result }
    {
        told(self.stat_of(at.node()))
    }

    /// What is known of the node that a path names below a directory.
    ///
    /// # Errors
    ///
    /// `NotDirectory` for a file, then the path's refusal, and nothing where the path names a node.
    pub fn stat_at(
        &self,
        at: &Descriptor,
        flags: PathFlags,
        path: &str,
    ) -> FilesystemResult<DescriptorStat>
        requires { IsOf self.now at.now }
        ensures is { result ≡ told (stat_found self.now.nodes at.now flags path.now) }
        ensures found { IsOk (found_at self.now.nodes at.now (follows flags) path.now) → IsOk result }
    {
        match self.find_at(at, flags.contains(PathFlags::SYMLINK_FOLLOW), path) {
            Ok(node) => told(self.stat_of(node)),
            Err(code) => Err(TrappableError::Normal(code)),
        }
    }

    /// The text of the link that a path names below a directory.
    ///
    /// # Errors
    ///
    /// `NotDirectory` for a file, then the path's refusal, then `Invalid` for what is no link.
    pub fn readlink_at(&self, at: &Descriptor, path: &str) -> FilesystemResult<CwdText>
        requires { IsOf self.now at.now }
        ensures { Answers result (link_read self.now.nodes at.now path.now) }
    {
        let node = match self.find_at(at, false, path) {
            Ok(node) => node,
            Err(code) => return Err(TrappableError::Normal(code)),
        };
        match self.nodes().link_text(node) {
            Some(text) => copy_of(self.alloc(), text),
            None => Err(TrappableError::Normal(ErrorCode::Invalid)),
        }
    }

    /// Whether two descriptors are of one node. The second one may be of another tree.
    pub fn is_same_object(&self, at: &Descriptor, other: &Descriptor) -> FilesystemResult<bool>
        requires at { IsOf self.now at.now }
        requires other { IsOfIfHere self.now other.now }
        ensures { result ≡ Ok (is_same at.now other.now) }
    {
        Ok(at.tree() == other.tree() && at.node() == other.node())
    }

    fn hash_of(&self, node: u64) -> MetadataHashValue
        ensures { result ≡ hash_of self.now node }
    {
        MetadataHashValue {
            lower: node,
            upper: u64::from(self.number()),
        }
    }

    /// What no other node of any tree has.
    pub fn metadata_hash(&self, at: &Descriptor) -> FilesystemResult<MetadataHashValue>
        requires { IsOf self.now at.now }
        ensures { result ≡ Ok (hash_of self.now (node_in at.now)) }
    {
        Ok(self.hash_of(at.node()))
    }

    /// What no other node of any tree has, of the node that a path names below a directory.
    ///
    /// # Errors
    ///
    /// `NotDirectory` for a file, then the path's refusal.
    pub fn metadata_hash_at(
        &self,
        at: &Descriptor,
        flags: PathFlags,
        path: &str,
    ) -> FilesystemResult<MetadataHashValue>
        requires { IsOf self.now at.now }
        ensures { result ≡ told (hash_found self.now at.now flags path.now) }
    {
        match self.find_at(at, flags.contains(PathFlags::SYMLINK_FOLLOW), path) {
            Ok(node) => Ok(self.hash_of(node)),
            Err(code) => Err(TrappableError::Normal(code)),
        }
    }
}
