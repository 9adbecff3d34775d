/// How many bytes one task reads or writes at most.
pub(crate) const TASK_BYTES: usize = 8192;

/// Work of a file stream that is done apart from its polls: one read or one write. The first turn
/// starts it and the second does it.
#[derive(Drop)]
pub enum Task<W: Drop, D: Drop> {
    NotStarted(W),
    Running(W),
    /// What came of it, until a poll takes it.
    Done(D),
}

/// What a turn of a stream's task did.
#[derive(Clone, Copy, Debug, PartialEq, Eq)]
pub enum TaskTurn {
    /// The task was started.
    Started,
    /// One item was put where the next poll finds it.
    Gave,
    /// The work is done.
    Done,
    /// Nothing: no task stands, it is done, or what it gave was not taken yet.
    Idle,
}
