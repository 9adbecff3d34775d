ghost use Rattle.std.specs.Prelude.{◌≡◌, IfOk, OnErr};
ghost use Rattle.wasi_fs.specs.Listing.{listed};
ghost use Rattle.wasi_fs.specs.Trees.{IsDirOf, KeepsDescriptors};
ghost use Rattle.wasi_fs_streams.specs.Directories.{directory_streamed};

use wasi_base::{OutOfMemory, TrappableError};
use wasi_fs::{Dir, DirectoryEntries, Tree};
use wasi_fs_types::ErrorCode;
use wasi_producers::FallibleIteratorProducer;

/// A directory's entries as a stream of items, ascending by their names' bytes.
pub type DirectoryStream = FallibleIteratorProducer<DirectoryEntries, ErrorCode>;

/// The stream of a directory's entries as they are now. A planned fault, which is then gone and
/// counted, makes a stream that ended with its code.
pub fn directory_stream(tree: &mut Tree, dir: &Dir) -> Result<DirectoryStream, OutOfMemory>
    requires { IsDirOf tree.old dir.now }
    ensures lists { IfOk result (λ stream. (stream ≡ directory_streamed (listed tree.old dir.now).0) × (tree.new ≡ (listed tree.old dir.now).1)) }
    ensures memory { OnErr result (tree.new ≡ tree.old) }
    ensures kept { KeepsDescriptors tree.old tree.new }
{
    match tree.list(dir) {
        Ok(entries) => Ok(FallibleIteratorProducer::new(entries)),
        Err(TrappableError::Normal(code)) => Ok(FallibleIteratorProducer::Ended(Err(code))),
        Err(TrappableError::OutOfMemory) => Err(OutOfMemory),
        Err(TrappableError::Trap(_)) => unreachable!(),
    }
}
