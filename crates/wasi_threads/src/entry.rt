use crate::piece::Piece;
use wasi_base::IoKind;
use wasi_stdin::Outcome;

/// What one hold of the lock did. A wait is what it was when the call began.
#[derive(Clone, Copy, Debug, PartialEq, Eq, Drop)]
pub enum Event {
    /// A pass came to be.
    Join,
    /// A read of so many bytes, one at least.
    Read(u64),
    /// A skip of so many bytes, one at least.
    Skip(u64),
    Ready,
    Block(Option<u64>),
    /// A polled read by this wait, with room for so many bytes.
    PollRead(Option<u64>, u64),
    WaitOver(Option<u64>),
    /// The worker took the size that is asked for.
    Capture,
    /// The worker delivered what its read gave.
    Deliver(Outcome),
    /// A pass asked the worker to stop.
    Stop,
    /// The worker saw that it was asked to stop.
    SawStop,
}

/// What an entry keeps of the answer.
#[derive(Clone, Copy, Debug, PartialEq, Eq, Drop)]
pub enum Kept {
    None,
    /// So many bytes were handed out, skipped or captured.
    Count(u64),
    Flag(bool),
    Closed,
    Failed(IoKind),
    Pending,
}

/// One event of the history.
#[derive(Drop)]
pub struct Entry {
    /// Its place in the history, from 0.
    pub number: u64,
    /// The pass that made it.
    pub pass: u64,
    pub event: Event,
    pub answer: Kept,
    /// The bytes that were handed out, skipped or delivered.
    pub bytes: Piece,
    /// The wait that a block or a polled read left.
    pub wait: Option<u64>,
}
