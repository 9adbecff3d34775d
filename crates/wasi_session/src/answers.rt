ghost use Rattle.std.specs.Prelude.{◌≡◌};
ghost use Rattle.wasi_host.specs.Calls.{error_told, result_told, poll_told, is_done, mistaken};

use wasi_base::{Polled, StreamError, TrapText};
use wasi_host::Deed;
use wasi_reply::Told;

// No stream answers that it is out of memory here: that comes before a stream is asked.
pub fn told_error(error: StreamError) -> Told
    ensures { result ≡ error_told error }
{
    match error {
        StreamError::Closed => Told::Closed,
        StreamError::LastOperationFailed(kind) => Told::Failed(kind),
        StreamError::Trap(text) => Told::Trap(text),
        StreamError::OutOfMemory => Told::Pending,
    }
}

/// What tells how many.
pub fn told_count(answer: Result<u64, StreamError>) -> Told
    ensures { result ≡ result_told Told.Count answer }
{
    match answer {
        Ok(count) => Told::Count(count),
        Err(error) => told_error(error),
    }
}

/// What tells that it is done.
pub fn told_done(answer: Result<(), StreamError>) -> Told
    ensures { result ≡ result_told is_done answer }
{
    match answer {
        Ok(()) => Told::Ok,
        Err(error) => told_error(error),
    }
}

/// The same of a polled call.
pub fn told_polled_count(answer: Polled<u64>) -> Told
    ensures { result ≡ poll_told Told.Count answer }
{
    match answer {
        Polled::Pending => Told::Pending,
        Polled::Ready(count) => Told::Count(count),
        Polled::Failed(kind) => Told::Failed(kind),
    }
}

pub fn told_polled_done(answer: Polled<()>) -> Told
    ensures { result ≡ poll_told is_done answer }
{
    match answer {
        Polled::Pending => Told::Pending,
        Polled::Ready(()) => Told::Ok,
        Polled::Failed(kind) => Told::Failed(kind),
    }
}

/// A call that the entry does not take.
pub fn mistaken() -> Deed
    ensures { result ≡ mistaken }
{
    Deed::Tell(Told::Trap(TrapText::ResourceWrongType))
}
