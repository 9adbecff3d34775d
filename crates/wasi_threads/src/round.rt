ghost use Rattle.std.specs.Prelude.{◌≡◌, ◌≤◌, vec_len, vec_capacity, IfOk};

use std::alloc::Global;
use wasi_base::OutOfMemory;

/// The memory of one round of the worker: room for the read, and for a copy of what it gives.
#[derive(Drop)]
pub struct Round {
    pub size: usize,
    pub given: Vec<u8>,
    pub copy: Vec<u8>,
    ghost long: { vec_len given ≡ size },
    ghost room: { size ≤ vec_capacity copy },
    ghost none: { vec_len copy ≡ 0 },
}

impl Round {
    pub(crate) fn new(alloc: Global, size: usize) -> Result<Round, OutOfMemory>
        ensures { IfOk result (λ r. r.size ≡ size) }
    {
        let given = vec![in alloc; 0u8; size]?;
        let copy = Vec::with_capacity(alloc, size)?;
        Ok(Round { size, given, copy })
    }
}

/// What the worker found under the lock.
#[derive(Drop)]
pub enum Taken {
    Stopped,
    Some(Round),
    NoMemory,
}

/// How a round of the worker ended.
#[derive(Clone, Copy, Debug, PartialEq, Eq, Drop)]
pub enum Step {
    Went,
    Ended,
    Stopped,
    NoMemory,
}
