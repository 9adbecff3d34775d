use wasi_base::IoKind;

/// What one turn of a reader task did.
#[derive(Clone, Copy, Debug, PartialEq, Eq, Drop)]
pub enum ReaderTurn {
    /// So many bytes were read into the channel.
    Gave(u64),
    /// The source is at its end, and the task ended.
    End,
    /// The source failed, and the task ended.
    Fault(IoKind),
    /// The channel is full, or the task has ended.
    Idle,
}

/// What stands in the channel; bytes by their number.
#[derive(Clone, Copy, Drop)]
pub(crate) enum Waiting {
    Bytes(usize),
    End,
    Fault(IoKind),
}
