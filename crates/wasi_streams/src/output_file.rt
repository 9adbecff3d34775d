ghost use Rattle.std.specs.Prelude.{true, ◌≡◌, length, OnOk};
ghost use Rattle.wasi_base.specs.Causes.{HasCause};
ghost use Rattle.wasi_base.specs.Sink.{with_more};
ghost use Rattle.wasi_base.specs.declared.stream_error.StreamError.TheVariants.{LastOperationFailed};
ghost use Rattle.wasi_streams.specs.Answers.{NeverNoMemory, PollsFault};
ghost use Rattle.wasi_streams.specs.Outputs.{Outlet, IsOutlet, after_all_written, after_flushed, write_answer, flush_answer, poll_all_answer, poll_flush_answer, file_check_write, file_write, file_flush, file_poll_write, file_poll_flush, SendsAll, FlushesOnce};

use crate::block::MOST_BYTES;
use crate::{OutputStream, Pollable};
use bytes::Bytes;
use wasi_base::{Polled, Sink, StreamError, write_all};

/// A sink as an output that keeps nothing back. A fault leaves the stream open, and the bytes
/// that went out before it stay out.
#[derive(Drop)]
pub struct OutputFile<K: Sink + Drop> {
    sink: K,
}

impl<K: Sink + Drop> OutputFile<K> {
    pub fn new(sink: K) -> OutputFile<K>
        ensures { result.sink ≡ sink }
    {
        OutputFile { sink }
    }

    pub fn sink(&self) -> &K
        ensures { result.now ≡ self.now.sink }
    {
        &self.sink
    }

    /// Writes the whole piece and answers its length. Never pending.
    pub fn poll_write(&mut self, piece: &[u8]) -> Polled<u64>
        ensures told { (out : Outlet) → IsOutlet (K.taken self.old.sink) (K.limits self.old.sink) out → (result ≡ file_poll_write out piece.now) × IsOutlet (K.taken self.new.sink) (K.limits self.new.sink) (after_all_written out piece.now) }
        ensures sends { SendsAll (poll_all_answer (length piece.now)) piece.now (K.taken self.old.sink) (K.limits self.old.sink) result (K.taken self.new.sink) (K.limits self.new.sink) }
        ensures cause { PollsFault (K.faults self.old.sink) (K.faults self.new.sink) result }
    {
        match write_all(&mut self.sink, piece) {
            Ok(()) => Polled::Ready(piece.len() as u64),
            Err(stop) => Polled::Failed(stop.kind),
        }
    }

    /// Flushes the sink. Never pending.
    pub fn poll_flush(&mut self) -> Polled<()>
        ensures told { (out : Outlet) → IsOutlet (K.taken self.old.sink) (K.limits self.old.sink) out → (result ≡ file_poll_flush out) × IsOutlet (K.taken self.new.sink) (K.limits self.new.sink) (after_flushed out) }
        ensures same { K.taken self.new.sink ≡ K.taken self.old.sink }
        ensures flushes { FlushesOnce poll_flush_answer (K.limits self.old.sink) result (K.limits self.new.sink) }
        ensures cause { PollsFault (K.faults self.old.sink) (K.faults self.new.sink) result }
    {
        match self.sink.flush() {
            Ok(()) => Polled::Ready(()),
            Err(kind) => Polled::Failed(kind),
        }
    }
}

impl<K: Sink + Drop> OutputStream for OutputFile<K> {
    /// Always 65536.
    fn check_write(&mut self) -> Result<u64, StreamError>
        ensures answer { result ≡ file_check_write }
        ensures same { self.new ≡ self.old }
        ensures memory { NeverNoMemory result }
    {
        Ok(MOST_BYTES)
    }

    /// Writes all bytes, whatever `check_write` says. Every fault is told as a failure, a broken
    /// pipe too.
    fn write(&mut self, bytes: Bytes) -> Result<(), StreamError>
        ensures told { (out : Outlet) → IsOutlet (K.taken self.old.sink) (K.limits self.old.sink) out → (result ≡ file_write out bytes) × IsOutlet (K.taken self.new.sink) (K.limits self.new.sink) (after_all_written out bytes) }
        ensures whole { OnOk result (K.taken self.new.sink ≡ with_more (K.taken self.old.sink) bytes) }
        ensures sends { SendsAll (write_answer LastOperationFailed) bytes (K.taken self.old.sink) (K.limits self.old.sink) result (K.taken self.new.sink) (K.limits self.new.sink) }
        ensures cause { HasCause (K.faults self.old.sink) (K.faults self.new.sink) result }
        ensures memory { NeverNoMemory result }
    {
        match write_all(&mut self.sink, bytes.as_slice()) {
            Ok(()) => Ok(()),
            Err(stop) => Err(StreamError::LastOperationFailed(stop.kind)),
        }
    }

    /// Flushes the sink.
    fn flush(&mut self) -> Result<(), StreamError>
        ensures told { (out : Outlet) → IsOutlet (K.taken self.old.sink) (K.limits self.old.sink) out → (result ≡ file_flush out) × IsOutlet (K.taken self.new.sink) (K.limits self.new.sink) (after_flushed out) }
        ensures same { K.taken self.new.sink ≡ K.taken self.old.sink }
        ensures flushes { FlushesOnce (flush_answer LastOperationFailed) (K.limits self.old.sink) result (K.limits self.new.sink) }
        ensures cause { HasCause (K.faults self.old.sink) (K.faults self.new.sink) result }
        ensures memory { NeverNoMemory result }
    {
        match self.sink.flush() {
            Ok(()) => Ok(()),
            Err(kind) => Err(StreamError::LastOperationFailed(kind)),
        }
    }
}

impl<K: Sink + Drop> Pollable for OutputFile<K> {
    /// Always.
    fn ready(&mut self) -> bool
        ensures answer { result ≡ true }
        ensures same { self.new ≡ self.old }
    {
        true
    }
}
