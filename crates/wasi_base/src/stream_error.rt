ghost use Rattle.std.specs.Prelude.{◌≡◌};
ghost use Rattle.wasi_base.specs.StreamError.{stream_error_of};

use crate::{IoKind, TrapText};

/// What a stream's call answers that gives no bytes.
#[derive(Clone, Copy, Debug, PartialEq, Eq, Drop)]
pub enum StreamError {
    /// The stream is at its end; every later call answers this too.
    Closed,
    /// The source or the sink failed.
    LastOperationFailed(IoKind),
    /// The call breaks a rule of the stream, and its guest ends.
    Trap(TrapText),
    OutOfMemory,
}

/// A fault as a stream tells it: a broken pipe is the stream's end.
pub fn stream_error_from(kind: IoKind) -> StreamError
    ensures { result ≡ stream_error_of kind }
{
    match kind {
        IoKind::BrokenPipe => StreamError::Closed,
        kind => StreamError::LastOperationFailed(kind),
    }
}
