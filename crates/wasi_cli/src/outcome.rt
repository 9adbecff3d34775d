use wasi_base::IoKind;

/// How a poll of a handle begins.
#[derive(Clone, Copy, Drop)]
pub(crate) enum Start {
    /// The handle is closed.
    Ended,
    /// Another owner has the turn.
    Waits,
    /// The poll's operation is to be made.
    Runs,
}

/// What the operation of a poll came to.
#[derive(Drop)]
pub(crate) enum Outcome<T> {
    /// The stream is not ready.
    Waits,
    Gives(T),
    /// The stream is at its end.
    Closes,
    /// The source or the sink of the stream failed.
    Fails(IoKind),
}
