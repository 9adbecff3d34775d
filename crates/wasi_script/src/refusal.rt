use std::alloc::{AllocError, AllocFailed};
use thiserror::Error;
use wasi_base::OutOfMemory;

/// Why there is no such line, or no such part of a line.
#[derive(Clone, Copy, Debug, PartialEq, Eq, Drop, Error)]
pub enum Refusal {
    #[error("not valid")]
    Invalid,
    #[error("out of memory")]
    OutOfMemory,
}

impl From<OutOfMemory> for Refusal {
    ghost use Rattle.std.specs.Prelude.{◌≡◌};
    ghost use Rattle.wasi_script.specs.declared.refusal.Refusal.TheVariants as refusal;

    ghost from_gives = { λ _ result. result ≡ refusal.OutOfMemory };

    fn from(_: OutOfMemory) -> Refusal {
        Refusal::OutOfMemory
    }
}

impl From<AllocError> for Refusal {
    ghost use Rattle.std.specs.Prelude.{◌≡◌};
    ghost use Rattle.wasi_script.specs.declared.refusal.Refusal.TheVariants as refusal;

    ghost from_gives = { λ _ result. result ≡ refusal.OutOfMemory };

    fn from(_: AllocError) -> Refusal {
        Refusal::OutOfMemory
    }
}

impl<T: Drop> From<AllocFailed<T>> for Refusal {
    ghost use Rattle.std.specs.Prelude.{◌≡◌};
    ghost use Rattle.wasi_script.specs.declared.refusal.Refusal.TheVariants as refusal;

    ghost from_gives = { λ _ result. result ≡ refusal.OutOfMemory };

    fn from(_: AllocFailed<T>) -> Refusal {
        Refusal::OutOfMemory
    }
}
