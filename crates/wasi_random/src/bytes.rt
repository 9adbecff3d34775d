ghost use Rattle.std.specs.Prelude.{◌≡◌};

use std::alloc::AllocError;
use std::fmt;
use std::marker::Model;
use wasi_base::{OutOfMemory, TrapText};

/// Random bytes, which contracts see as a list.
#[derive(Debug, Drop)]
pub struct RandomBytes {
    bytes: Vec<u8>,
}

impl Model for RandomBytes {
    ghost use Rattle.std.specs.Prelude.{ℕ, List};

    ghost Value = { List ℕ };

    ghost view = { λ a. a.bytes.items };
}

impl RandomBytes {
    pub fn new(bytes: Vec<u8>) -> RandomBytes
        ensures { result ≡ bytes.items }
    {
        RandomBytes { bytes }
    }

    pub fn into_vec(self) -> Vec<u8>
        ensures { result.items ≡ self }
    {
        self.bytes
    }

    pub fn as_slice(&self) -> &[u8]
        ensures { result.now ≡ self.now }
    {
        self.bytes.as_slice()
    }
}

/// Why a guest gets no random bytes.
#[derive(Clone, Copy, Debug, PartialEq, Eq)]
pub enum RandomRefused {
    /// It asked for more than the limit, and is trapped.
    Trap(TrapText),
    OutOfMemory,
}

/// A trap prints its text.
impl fmt::Display for RandomRefused {
    ghost use Rattle.std.specs.Prelude.{Some};
    ghost use Rattle.wasi_random.specs.Refused.{refused_text};

    ghost output = { λ refused. Some (refused_text refused) };

    fn fmt<W: fmt::Write>(&self, f: &mut fmt::Formatter<W>) -> fmt::Result {
        match self {
            RandomRefused::Trap(text) => text.fmt(f),
            RandomRefused::OutOfMemory => f.write_str("out of memory"),
        }
    }
}

impl std::error::Error for RandomRefused {}

impl From<OutOfMemory> for RandomRefused {
    ghost use Rattle.wasi_random.specs.declared.bytes.RandomRefused.TheVariants as refused;

    ghost from_gives = { λ _ result. result ≡ refused.OutOfMemory };

    fn from(_: OutOfMemory) -> RandomRefused {
        RandomRefused::OutOfMemory
    }
}
