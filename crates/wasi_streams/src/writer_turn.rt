use wasi_base::IoKind;

/// What one turn of a writer task did.
#[derive(Clone, Copy, Debug, PartialEq, Eq, Drop)]
pub enum WriterTurn {
    /// The sink took so many of the buffered bytes.
    Took(u64),
    /// The sink was flushed, as was asked.
    Flushed,
    /// The sink failed, and the buffered bytes are lost.
    Fault(IoKind),
    /// The stream failed before, or there is nothing to do.
    Idle,
}

/// Whether a turn failed, and whether a call told it.
#[derive(Clone, Copy, Drop)]
pub(crate) enum Trouble {
    Nothing,
    Untold(IoKind),
    Told,
}
