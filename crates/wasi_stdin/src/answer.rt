ghost use Rattle.std.specs.Prelude.{◌≡◌};
ghost use Rattle.wasi_stdin.specs.Shared.{Met, counted, answer_of};

use wasi_base::IoKind;

/// What a read or skip is told.
#[derive(Clone, Copy, Debug, PartialEq, Eq, Drop)]
pub enum Answer {
    /// So many bytes were handed out or skipped; 0 where none are held.
    Bytes(usize),
    /// The input is at its end.
    Closed,
    /// The input failed; told once.
    Failed(IoKind),
}

/// What a polled read is told.
#[derive(Clone, Copy, Debug, PartialEq, Eq, Drop)]
pub enum PolledRead {
    /// So many bytes were handed out, as many as fit; 0 at the input's end.
    Bytes(usize),
    /// Not before the next delivery.
    Pending,
    /// The input failed; told once.
    Failed(IoKind),
}

/// What one read of the input gave.
#[derive(Clone, Copy, Debug, PartialEq, Eq, Drop)]
pub enum Outcome {
    /// So many bytes, one at least.
    Gave(usize),
    End,
    Fault(IoKind),
}

/// What a call that asks for bytes meets.
pub(crate) enum Meeting {
    NothingYet,
    Handed(usize),
    Fault(IoKind),
    End,
}

impl Meeting {
    /// A read takes a broken pipe for the input's end.
    pub(crate) fn answer(self) -> Answer
        ensures { result ≡ answer_of self }
    {
        match self {
            Meeting::NothingYet => Answer::Bytes(0),
            Meeting::Handed(count) => Answer::Bytes(count),
            Meeting::Fault(IoKind::BrokenPipe) | Meeting::End => Answer::Closed,
            Meeting::Fault(kind) => Answer::Failed(kind),
        }
    }
}
