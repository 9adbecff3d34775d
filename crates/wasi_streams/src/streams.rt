ghost use Rattle.std.specs.Prelude.{◌≡◌, ◌≤◌, length, IfOk};
ghost use Rattle.wasi_streams.specs.Answers.{OnNoMemory, NeverNoMemory};

use bytes::Bytes;
use std::alloc::Global;
use wasi_base::StreamError;

/// Bytes that a guest reads.
pub trait InputStream {
    /// The next bytes, at most `size`; none where none are there yet. Takes its memory before it
    /// changes anything: out of memory leaves the stream as it was.
    fn read(&mut self, alloc: Global, size: u64) -> Result<Bytes, StreamError>
        ensures bound { IfOk result (λ bytes. length bytes ≤ size) }
        ensures memory { OnNoMemory result (self.new ≡ self.old) };

    /// A read whose bytes are dropped; answers their number. Takes no memory.
    fn skip(&mut self, size: u64) -> Result<u64, StreamError>
        ensures bound { IfOk result (λ count. count ≤ size) }
        ensures memory { NeverNoMemory result };
}

/// Where a guest's bytes go. No call takes memory.
pub trait OutputStream {
    /// How many bytes one write may have now.
    fn check_write(&mut self) -> Result<u64, StreamError>
        ensures memory { NeverNoMemory result };

    /// Takes all bytes, or answers why not.
    fn write(&mut self, bytes: Bytes) -> Result<(), StreamError>
        ensures memory { NeverNoMemory result };

    /// Hands on what is kept back.
    fn flush(&mut self) -> Result<(), StreamError>
        ensures memory { NeverNoMemory result };
}

/// A stream that can tell whether a call on it would wait.
pub trait Pollable {
    /// Whether a call would not wait. Takes no memory.
    fn ready(&mut self) -> bool;
}
