ghost use Rattle.std.specs.Prelude.{◌≡◌};
ghost use Rattle.wasi_base.specs.Trappable.{normal_or_trapped, normal_in};
ghost use Rattle.std.specs.Option.{option_copied};

use crate::TrapText;
use std::fmt;

/// What a call answers that fails: a guest's own error, or a trap.
#[derive(Debug, Drop)]
pub enum TrappableError<T> {
    /// An error that the guest is told and can handle.
    Normal(T),
    /// The guest ends.
    Trap(TrapText),
    OutOfMemory,
}

/// What is no error of the guest's own.
#[derive(Clone, Copy, Debug, PartialEq, Eq, Drop)]
pub enum Trapped {
    Trap(TrapText),
    OutOfMemory,
}

impl<T: Drop> TrappableError<T> {
    pub fn trap(text: TrapText) -> TrappableError<T>
        ensures { result ≡ TrappableError.Trap text }
    {
        TrappableError::Trap(text)
    }

    /// The guest's own error, or what else it is.
    pub fn downcast(self) -> Result<T, Trapped>
        ensures { result ≡ normal_or_trapped self }
    {
        match self {
            TrappableError::Normal(error) => Ok(error),
            TrappableError::Trap(text) => Err(Trapped::Trap(text)),
            TrappableError::OutOfMemory => Err(Trapped::OutOfMemory),
        }
    }

    /// The guest's own error, where it is one.
    pub fn downcast_ref(&self) -> Option<&T>
        ensures { option_copied result ≡ normal_in self.now }
    {
        match self {
            TrappableError::Normal(error) => Some(error),
            TrappableError::Trap(_) | TrappableError::OutOfMemory => None,
        }
    }
}

impl<T: fmt::Display> fmt::Display for TrappableError<T> {
    ghost use Rattle.wasi_base.specs.Trappable.{trappable_text};

    ghost output = { λ error. trappable_text T.output error };

    fn fmt<W: fmt::Write>(&self, f: &mut fmt::Formatter<W>) -> fmt::Result {
        match self {
            TrappableError::Normal(error) => error.fmt(f),
            TrappableError::Trap(text) => text.fmt(f),
            TrappableError::OutOfMemory => write!(f, "out of memory"),
        }
    }
}

impl<T: fmt::Debug + fmt::Display + Drop> std::error::Error for TrappableError<T> {}

impl<T> From<T> for TrappableError<T> {
    ghost use Rattle.wasi_base.specs.declared.trappable.TrappableError.TheVariants.{Normal};

    ghost from_gives = { λ error result. result ≡ Normal error };

    fn from(error: T) -> TrappableError<T> {
        TrappableError::Normal(error)
    }
}
