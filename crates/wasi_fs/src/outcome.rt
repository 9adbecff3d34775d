ghost use Rattle.std.specs.Prelude.{◌≡◌};
ghost use Rattle.wasi_fs.specs.Outcome.{told, from_store, done};

use wasi_base::TrappableError;
use wasi_fs_nodes::StoreError;
use wasi_fs_types::{ErrorCode, FilesystemResult};

/// A refusal is told to the guest.
pub(crate) fn told<T>(outcome: Result<T, ErrorCode>) -> FilesystemResult<T>
    ensures { result ≡ told outcome }
{
    match outcome {
        Ok(answer) => Ok(answer),
        Err(code) => Err(TrappableError::Normal(code)),
    }
}

/// A refusal of the nodes is told to the guest.
pub(crate) fn from_store<T>(outcome: Result<T, StoreError>) -> FilesystemResult<T>
    ensures { result ≡ from_store outcome }
{
    match outcome {
        Ok(answer) => Ok(answer),
        Err(StoreError::Code(code)) => Err(TrappableError::Normal(code)),
        Err(StoreError::OutOfMemory) => Err(TrappableError::OutOfMemory),
    }
}

/// The same, where what was made is not told.
pub(crate) fn done(outcome: Result<u64, StoreError>) -> FilesystemResult<()>
    ensures { result ≡ done outcome }
{
    match outcome {
        Ok(_) => Ok(()),
        Err(StoreError::Code(code)) => Err(TrappableError::Normal(code)),
        Err(StoreError::OutOfMemory) => Err(TrappableError::OutOfMemory),
    }
}
