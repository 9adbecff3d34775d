ghost use Rattle.std.specs.Prelude.{◌≡◌, true, IfOk, OnErr};
ghost use Rattle.wasi_fs_nodes.specs.Climbs.{climbs};
ghost use Rattle.wasi_fs.specs.Calls.{node_renamed};
ghost use Rattle.wasi_fs.specs.Outcome.{Leaves};
ghost use Rattle.wasi_fs.specs.Trees.{IsOf, IsOfIfHere, KeepsDescriptors};
ghost use Rattle.wasi_fs.specs.declared.descriptor.Descriptor.{Descriptor};
ghost use Rattle.wasi_fs_calls.specs.Rule.{answered, pair_answered, hash_told, Answers, takes_memory, pair_takes_memory, IsMadeIn, IsTold};
ghost use Rattle.wasi_fs_calls.specs.Results.{told_of, done_of, opened_of};

use crate::answers::{DescriptorAnswer, DescriptorTold};
use crate::call::{DescriptorCall, PairCall};
use wasi_base::{OutOfMemory, TrappableError};
use wasi_clocks::WallTime;
use wasi_fs::{Descriptor, Tree};
use wasi_fs_nodes::below_is_told;
use wasi_fs_types::{FilesystemResult, MetadataHashValue};

/// Of a hash the caller is told the node; it knows the tree.
fn hash_told(hash: MetadataHashValue) -> DescriptorTold
    ensures { result ≡ hash_told hash }
{
    DescriptorTold::Hash { node: hash.lower }
}

/// What a call tells, or the code of its refusal. No call of a tree traps.
fn told(outcome: FilesystemResult<DescriptorTold>) -> Result<DescriptorAnswer, OutOfMemory>
    ensures { result ≡ told_of outcome }
{
    match outcome {
        Ok(told) => Ok(DescriptorAnswer::Told(told)),
        Err(TrappableError::Normal(code)) => Ok(DescriptorAnswer::Told(DescriptorTold::Err(code))),
        Err(TrappableError::Trap(_) | TrappableError::OutOfMemory) => Err(OutOfMemory),
    }
}

/// The same, where there is nothing to tell.
fn done(outcome: FilesystemResult<()>) -> Result<DescriptorAnswer, OutOfMemory>
    ensures { result ≡ done_of outcome }
{
    match outcome {
        Ok(()) => Ok(DescriptorAnswer::Told(DescriptorTold::Ok)),
        Err(error) => told(Err(error)),
    }
}

/// The same of a descriptor that is made.
fn opened(outcome: FilesystemResult<Descriptor>) -> Result<DescriptorAnswer, OutOfMemory>
    ensures { result ≡ opened_of outcome }
{
    match outcome {
        Ok(descriptor) => Ok(DescriptorAnswer::Opened(descriptor)),
        Err(error) => told(Err(error)),
    }
}

/// Makes a call on a descriptor of the tree, in a context whose streams work at once or by tasks, at
/// a time of the wall clock. A call that is refused changes nothing.
///
/// # Errors
///
/// Out of memory, which comes only where the call is not refused, and changes nothing.
pub fn answer(
    tree: &mut Tree,
    call: &DescriptorCall,
    at: &Descriptor,
    blocking: bool,
    now: WallTime,
) -> Result<DescriptorAnswer, OutOfMemory>
    requires { IsOf tree.old at.now }
    ensures answers { Answers tree.old tree.new result (answered tree.old at.now blocking now call.now) }
    ensures memory { OnErr result (takes_memory call.now ≡ true) }
    ensures made { IfOk result (IsMadeIn tree.new) }
    ensures kept { KeepsDescriptors tree.old tree.new }
    ensures second { (to : Descriptor) → IsOfIfHere tree.old to → IsOfIfHere tree.new to }
{
    match call {
        DescriptorCall::Advise {
            offset,
            length,
            advice,
        } => done(tree.advise(at, *offset, *length, *advice)),
        DescriptorCall::GetFlags => told(tree.get_flags(at).map(DescriptorTold::Flags)),
        DescriptorCall::GetType => told(tree.get_type(at).map(DescriptorTold::Type)),
        DescriptorCall::SetSize { size } => done(tree.set_size(at, *size)),
        DescriptorCall::SetTimes { access, modified } => {
            done(tree.set_times(at, *access, *modified, now))
        }
        DescriptorCall::SetTimesAt {
            flags,
            path,
            access,
            modified,
        } => done(tree.set_times_at(at, *flags, path.as_str(), *access, *modified, now)),
        DescriptorCall::Sync => done(tree.sync(at)),
        DescriptorCall::SyncData => done(tree.sync_data(at)),
        DescriptorCall::CreateDirectoryAt { path } => done(tree.create_directory_at(
            at,
            path.as_str(),
            now,
        )),
        DescriptorCall::Stat => told(tree.stat(at).map(DescriptorTold::Stat)),
        DescriptorCall::StatAt { flags, path } => {
            told(
                tree.stat_at(at, *flags, path.as_str())
                    .map(DescriptorTold::Stat),
            )
        }
        DescriptorCall::OpenAt {
            flags,
            path,
            how,
            mode,
        } => opened(tree.open_at(at, *flags, path.as_str(), *how, *mode, now, blocking)),
        DescriptorCall::ReadlinkAt { path } => {
            told(
                tree.readlink_at(at, path.as_str())
                    .map(DescriptorTold::Text),
            )
        }
        DescriptorCall::RemoveDirectoryAt { path } => done(tree.remove_directory_at(
            at,
            path.as_str(),
        )),
        DescriptorCall::SymlinkAt { text, path } => done(tree.symlink_at(
            at,
            text.as_str(),
            path.as_str(),
            now,
        )),
        DescriptorCall::UnlinkFileAt { path } => done(tree.unlink_file_at(at, path.as_str())),
        DescriptorCall::MetadataHash => told(tree.metadata_hash(at).map(hash_told)),
        DescriptorCall::MetadataHashAt { flags, path } => {
            told(
                tree.metadata_hash_at(at, *flags, path.as_str())
                    .map(hash_told),
            )
        }
    }
}

/// Renames; the way up by the parents tells which directories lie below which.
fn rename(
    tree: &mut Tree,
    at: &Descriptor,
    path: &str,
    to: &Descriptor,
    to_path: &str,
) -> FilesystemResult<()>
    requires at { IsOf tree.old at.now }
    requires to { IsOfIfHere tree.old to.now }
    ensures leaves { Leaves tree.old tree.new result (node_renamed (climbs tree.old.nodes) tree.old.nodes at.now path.now to.now to_path.now) }
    ensures kept { KeepsDescriptors tree.old tree.new }
{
    below_is_told();
    let _ = tree.root();
    tree.rename_at(at, path, to, to_path)
}

/// Makes a call on two descriptors. The first one is of the tree; the second one may be of another.
///
/// # Errors
///
/// Out of memory, which comes only where the call is not refused, and changes nothing.
pub fn answer_pair(
    tree: &mut Tree,
    call: &PairCall,
    at: &Descriptor,
    to: &Descriptor,
) -> Result<DescriptorAnswer, OutOfMemory>
    requires at { IsOf tree.old at.now }
    requires to { IsOfIfHere tree.old to.now }
    ensures answers { Answers tree.old tree.new result (pair_answered tree.old at.now to.now call.now) }
    ensures memory { OnErr result (pair_takes_memory call.now ≡ true) }
    ensures told { IfOk result IsTold }
    ensures kept { KeepsDescriptors tree.old tree.new }
    ensures second { (other : Descriptor) → IsOfIfHere tree.old other → IsOfIfHere tree.new other }
{
    match call {
        PairCall::LinkAt {
            flags,
            path,
            to_path,
        } => done(tree.link_at(at, *flags, path.as_str(), to, to_path.as_str())),
        PairCall::RenameAt { path, to_path } => done(rename(
            tree,
            at,
            path.as_str(),
            to,
            to_path.as_str(),
        )),
        PairCall::IsSameObject => told(tree.is_same_object(at, to).map(DescriptorTold::Truth)),
    }
}
