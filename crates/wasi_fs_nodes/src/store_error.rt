ghost use Rattle.std.specs.Prelude.{◌≡◌};

use std::alloc::AllocError;
use std::fmt;
use wasi_fs_types::ErrorCode;

/// Why a change is refused. What it would have changed is as it was.
#[derive(Clone, Copy, Debug, PartialEq, Eq, Drop)]
pub enum StoreError {
    /// For a reason that the guest is told.
    Code(ErrorCode),
    /// The allocator refused.
    OutOfMemory,
}

/// The words as they are, also where a width or a precision is asked for.
impl fmt::Display for StoreError {
    ghost use Rattle.std.specs.Prelude.{Some};
    ghost use Rattle.wasi_fs_nodes.specs.StoreError.{store_error_text};

    ghost output = { λ error. Some (store_error_text error) };

    ghost styled_output = { λ error _. Some (store_error_text error) };

    fn fmt<W: fmt::Write>(&self, f: &mut fmt::Formatter<W>) -> fmt::Result {
        match self {
            StoreError::Code(code) => code.fmt(f),
            StoreError::OutOfMemory => f.write_str("out of memory"),
        }
    }
}

impl std::error::Error for StoreError {}

impl From<AllocError> for StoreError {
    ghost use Rattle.std.specs.Prelude.{◌≡◌};
    ghost use Rattle.wasi_fs_nodes.specs.declared.store_error.StoreError.TheVariants.{OutOfMemory};

    ghost from_gives = { λ _ result. result ≡ OutOfMemory };

    fn from(_: AllocError) -> StoreError {
        StoreError::OutOfMemory
    }
}

impl From<ErrorCode> for StoreError {
    ghost use Rattle.std.specs.Prelude.{◌≡◌};
    ghost use Rattle.wasi_fs_nodes.specs.declared.store_error.StoreError.TheVariants.{Code};

    ghost from_gives = { λ code result. result ≡ Code code };

    fn from(code: ErrorCode) -> StoreError {
        StoreError::Code(code)
    }
}
