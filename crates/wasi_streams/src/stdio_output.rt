ghost use Rattle.std.specs.Prelude.{true, ◌≡◌, ◌<◌, ◌≤◌, Err, length, OnOk};
ghost use Rattle.wasi_base.specs.Causes.{HasCause};
ghost use Rattle.wasi_base.specs.Sink.{with_more};
ghost use Rattle.wasi_base.specs.StreamError.{stream_error_of};
ghost use Rattle.wasi_base.specs.declared.polled.Polled.TheVariants.{Ready};
ghost use Rattle.wasi_base.specs.declared.stream_error.StreamError.TheVariants.{Trap};
ghost use Rattle.wasi_base.specs.declared.trap_text.TrapText.TheVariants.{WriteExceededBudget};
ghost use Rattle.wasi_streams.specs.Answers.{NeverNoMemory, PollsFault};
ghost use Rattle.wasi_streams.specs.Outputs.{Outlet, IsOutlet, after_part_written, after_flushed, write_answer, flush_answer, poll_flush_answer, stdio_check_write, stdio_write, after_stdio_write, stdio_flush, stdio_poll_write, stdio_poll_flush, SendsAll, SendsPart, FlushesOnce};

use crate::block::MOST_BYTES;
use crate::{OutputStream, Pollable};
use bytes::Bytes;
use wasi_base::{Polled, Sink, StreamError, TrapText, stream_error_from, write_all};

/// A sink as a standard output, which keeps nothing back and takes at most 65536 bytes at once. A
/// fault leaves the stream open, and the bytes that went out before it stay out.
#[derive(Drop)]
pub struct StdioOutputStream<K: Sink + Drop> {
    sink: K,
}

impl<K: Sink + Drop> StdioOutputStream<K> {
    pub fn new(sink: K) -> StdioOutputStream<K>
        ensures { result.sink ≡ sink }
    {
        StdioOutputStream { sink }
    }

    pub fn sink(&self) -> &K
        ensures { result.now ≡ self.now.sink }
    {
        &self.sink
    }

    /// One write of the sink; answers how many bytes it took, and 0 for no bytes. Never pending.
    pub fn poll_write(&mut self, piece: &[u8]) -> Polled<u64>
        ensures told { (out : Outlet) → IsOutlet (K.taken self.old.sink) (K.limits self.old.sink) out → (result ≡ stdio_poll_write out piece.now) × IsOutlet (K.taken self.new.sink) (K.limits self.new.sink) (after_part_written out piece.now) }
        ensures nothing { length piece.now ≡ 0 → (result ≡ Ready 0) × (self.new ≡ self.old) }
        ensures sends { 0 < length piece.now → SendsPart piece.now (K.taken self.old.sink) (K.limits self.old.sink) result (K.taken self.new.sink) (K.limits self.new.sink) }
        ensures cause { PollsFault (K.faults self.old.sink) (K.faults self.new.sink) result }
    {
        match self.sink.write(piece) {
            Ok(count) => Polled::Ready(count as u64),
            Err(kind) => Polled::Failed(kind),
        }
    }

    /// Flushes the sink. Never pending.
    pub fn poll_flush(&mut self) -> Polled<()>
        ensures told { (out : Outlet) → IsOutlet (K.taken self.old.sink) (K.limits self.old.sink) out → (result ≡ stdio_poll_flush out) × IsOutlet (K.taken self.new.sink) (K.limits self.new.sink) (after_flushed out) }
        ensures same { K.taken self.new.sink ≡ K.taken self.old.sink }
        ensures flushes { FlushesOnce poll_flush_answer (K.limits self.old.sink) result (K.limits self.new.sink) }
        ensures cause { PollsFault (K.faults self.old.sink) (K.faults self.new.sink) result }
    {
        match self.sink.flush() {
            Ok(()) => Polled::Ready(()),
            Err(kind) => Polled::Failed(kind),
        }
    }
}

impl<K: Sink + Drop> OutputStream for StdioOutputStream<K> {
    /// Always 65536.
    fn check_write(&mut self) -> Result<u64, StreamError>
        ensures answer { result ≡ stdio_check_write }
        ensures same { self.new ≡ self.old }
        ensures memory { NeverNoMemory result }
    {
        Ok(MOST_BYTES)
    }

    /// Writes all bytes. More than 65536 trap and nothing is written. A broken pipe is the
    /// stream's end, another fault a failure.
    fn write(&mut self, bytes: Bytes) -> Result<(), StreamError>
        ensures told { (out : Outlet) → IsOutlet (K.taken self.old.sink) (K.limits self.old.sink) out → (result ≡ stdio_write out bytes) × IsOutlet (K.taken self.new.sink) (K.limits self.new.sink) (after_stdio_write out bytes) }
        ensures over { 65536 < length bytes → (result ≡ Err (Trap WriteExceededBudget)) × (self.new ≡ self.old) }
        ensures whole { OnOk result (K.taken self.new.sink ≡ with_more (K.taken self.old.sink) bytes) }
        ensures sends { length bytes ≤ 65536 → SendsAll (write_answer stream_error_of) bytes (K.taken self.old.sink) (K.limits self.old.sink) result (K.taken self.new.sink) (K.limits self.new.sink) }
        ensures cause { length bytes ≤ 65536 → HasCause (K.faults self.old.sink) (K.faults self.new.sink) result }
        ensures memory { NeverNoMemory result }
    {
        if bytes.len() as u64 > MOST_BYTES {
            return Err(StreamError::Trap(TrapText::WriteExceededBudget));
        }
        match write_all(&mut self.sink, bytes.as_slice()) {
            Ok(()) => Ok(()),
            Err(stop) => Err(stream_error_from(stop.kind)),
        }
    }

    /// Flushes the sink.
    fn flush(&mut self) -> Result<(), StreamError>
        ensures told { (out : Outlet) → IsOutlet (K.taken self.old.sink) (K.limits self.old.sink) out → (result ≡ stdio_flush out) × IsOutlet (K.taken self.new.sink) (K.limits self.new.sink) (after_flushed out) }
        ensures same { K.taken self.new.sink ≡ K.taken self.old.sink }
        ensures flushes { FlushesOnce (flush_answer stream_error_of) (K.limits self.old.sink) result (K.limits self.new.sink) }
        ensures cause { HasCause (K.faults self.old.sink) (K.faults self.new.sink) result }
        ensures memory { NeverNoMemory result }
    {
        match self.sink.flush() {
            Ok(()) => Ok(()),
            Err(kind) => Err(stream_error_from(kind)),
        }
    }
}

impl<K: Sink + Drop> Pollable for StdioOutputStream<K> {
    /// Always.
    fn ready(&mut self) -> bool
        ensures answer { result ≡ true }
        ensures same { self.new ≡ self.old }
    {
        true
    }
}
