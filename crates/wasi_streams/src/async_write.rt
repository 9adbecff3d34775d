ghost use Rattle.std.specs.Prelude.{◌≡◌, ◌<◌, ◌≤◌, ◌*◌, ◌^◌, ◌+◌, ◌-◌, ◌++◌, [], length, drop, IfOk, vec_capacity};
ghost use Rattle.wasi_base.specs.Causes.{Rose};
ghost use Rattle.wasi_streams.specs.Answers.{NeverNoMemory};
ghost use Rattle.wasi_streams.specs.Writer.{Writing, Flushing, Nothing_left, new_writer, budget_left, permit, told_first, after_told, writer_check_write, after_writer_check_write, accepts, with_accepted, buffering, writer_write, after_writer_write, writer_flush, after_writer_flush, writer_is_ready, work_of, WritesOnce, FlushesSink, OnTurnFault};

use crate::writer_turn::{Trouble, WriterTurn};
use crate::{OutputStream, Pollable};
use bytes::Bytes;
use std::alloc::Global;
use std::marker::Model;
use wasi_base::{OutOfMemory, Sink, StreamError, TrapText};

// moves the bytes from `from` on to the front, where the room after them is too short for so many
// more; answers where they stand then
fn with_room(bytes: &mut Vec<u8>, from: usize, count: usize) -> usize
    requires within { from ≤ length bytes.old.items }
    requires fits { 2 * (length bytes.old.items - from + count) ≤ vec_capacity bytes.old }
    ensures within { result ≤ length bytes.new.items }
    ensures same { drop result bytes.new.items ≡ drop from bytes.old.items }
    ensures room { length bytes.new.items + count ≤ vec_capacity bytes.new }
    ensures capacity { vec_capacity bytes.new ≡ vec_capacity bytes.old }
{
    if bytes.capacity() - bytes.len() >= count {
        return from;
    }
    let live = bytes.len() - from;
    bytes.rotate_left(from);
    bytes.truncate(live);
    0
}

/// An output that buffers what it accepts, up to its budget, until its writer task hands it to
/// the sink.
#[derive(Drop)]
pub struct AsyncWriteStream<K: Sink + Drop> {
    sink: K,
    budget: usize,
    /// The buffered bytes stand from `from` on, in room for twice the budget. So they are moved
    /// to its front at most once for as many bytes as the budget.
    bytes: Vec<u8>,
    from: usize,
    flushing: bool,
    trouble: Trouble,
}

impl<K: Sink + Drop> Model for AsyncWriteStream<K> {
    ghost use Rattle.std.specs.Prelude.{◌≤◌, ◌+◌, ◌*◌, drop, length, vec_capacity};
    ghost use Rattle.wasi_streams.specs.Writer.{Writer};

    ghost Value = { Writer K };

    ghost view = { λ w. record { sink = w.sink; budget = w.budget; buffered = drop w.from w.bytes.items; flushing = w.flushing; trouble = w.trouble } };

    ghost invariant = { λ w. record {
      within : w.from ≤ length w.bytes.items;
      budgeted : length w.bytes.items ≤ w.from + w.budget;
      room : 2 * w.budget ≤ vec_capacity w.bytes;
    } };
}

impl<K: Sink + Drop> AsyncWriteStream<K> {
    /// Nothing buffered. Takes the memory of all writes.
    pub fn new(alloc: Global, budget: u64, sink: K) -> Result<AsyncWriteStream<K>, OutOfMemory>
        requires { 0 < budget }
        ensures { IfOk result (λ writer. writer ≡ new_writer budget sink) }
    {
        let Ok(budget) = usize::try_from(budget) else {
            return Err(OutOfMemory);
        };
        let Some(room) = budget.checked_mul(2) else {
            return Err(OutOfMemory);
        };
        let bytes = Vec::with_capacity(alloc, room)?;
        Ok(AsyncWriteStream {
            sink,
            budget,
            bytes,
            from: 0,
            flushing: false,
            trouble: Trouble::Nothing,
        })
    }

    pub fn sink(&self) -> &K
        ensures { result.now ≡ self.now.sink }
    {
        &self.sink
    }

    /// One step of the writer task: one write of all that is buffered, or, where nothing is and a
    /// flush is pending, one flush of the sink. A fault loses what is buffered. Takes no memory.
    pub fn turn(&mut self) -> WriterTurn
        ensures idle { work_of self.old ≡ Nothing_left → (result ≡ WriterTurn.Idle) × (self.new ≡ self.old) }
        ensures writes { work_of self.old ≡ Writing → WritesOnce K.taken K.limits self.old result self.new }
        ensures flushes { work_of self.old ≡ Flushing → FlushesSink K.taken K.limits self.old result self.new }
        ensures later { K.faults self.old.sink ≤ K.faults self.new.sink }
        ensures fault { OnTurnFault result (Rose (K.faults self.old.sink) (K.faults self.new.sink)) }
    {
        if let Trouble::Untold(_) | Trouble::Told = self.trouble {
            return WriterTurn::Idle;
        }
        if self.from < self.bytes.len() {
            match self.sink.write(&self.bytes[self.from..]) {
                Ok(count) => {
                    self.from += count;
                    WriterTurn::Took(count as u64)
                }
                Err(kind) => {
                    self.from = self.bytes.len();
                    self.trouble = Trouble::Untold(kind);
                    WriterTurn::Fault(kind)
                }
            }
        } else if self.flushing {
            match self.sink.flush() {
                Ok(()) => {
                    self.flushing = false;
                    WriterTurn::Flushed
                }
                Err(kind) => {
                    self.trouble = Trouble::Untold(kind);
                    WriterTurn::Fault(kind)
                }
            }
        } else {
            WriterTurn::Idle
        }
    }

    // what a call is told before its own rules: a fault once, and then the end
    fn tell(&mut self) -> Result<(), StreamError>
        ensures answer { result ≡ told_first self.old.trouble (Ok tt) }
        ensures after { self.new ≡ after_told self.old.trouble self.old self.old }
    {
        match self.trouble {
            Trouble::Nothing => Ok(()),
            Trouble::Untold(kind) => {
                self.trouble = Trouble::Told;
                Err(StreamError::LastOperationFailed(kind))
            }
            Trouble::Told => Err(StreamError::Closed),
        }
    }

    // how many bytes one write may have
    fn permit(&self) -> usize
        ensures { result ≡ permit self.now }
    {
        if self.flushing {
            0
        } else {
            self.budget - (self.bytes.len() - self.from)
        }
    }

    // buffers these bytes
    fn keep(&mut self, bytes: &[u8])
        requires { length bytes.now ≤ budget_left self.old }
        ensures { self.new ≡ with_accepted self.old bytes.now }
    {
        self.from = with_room(&mut self.bytes, self.from, bytes.len());
        match self.bytes.extend_from_slice(bytes) {
            Ok(()) => {}
            Err(_) => unreachable!(),
        }
    }

    // the write's own rules
    fn accept(&mut self, bytes: &[u8]) -> Result<(), StreamError>
        ensures answer { result ≡ accepts self.old bytes.now }
        ensures after { self.new ≡ buffering self.old bytes.now }
    {
        if self.is_flushing() {
            return Err(StreamError::Trap(TrapText::WriteWhileFlushPending));
        }
        if bytes.len() > self.permit() {
            return Err(StreamError::Trap(TrapText::WriteExceededBudget));
        }
        self.keep(bytes);
        Ok(())
    }

    fn is_flushing(&self) -> bool
        ensures { result ≡ self.now.flushing }
    {
        self.flushing
    }
}

impl<K: Sink + Drop> OutputStream for AsyncWriteStream<K> {
    /// The budget that is left; 0 while a flush is pending. A fault of a turn is told first, once,
    /// and then the stream is closed.
    fn check_write(&mut self) -> Result<u64, StreamError>
        ensures answer { result ≡ writer_check_write self.old }
        ensures after { self.new ≡ after_writer_check_write self.old }
        ensures memory { NeverNoMemory result }
    {
        match self.tell() {
            Ok(()) => Ok(self.permit() as u64),
            Err(error) => Err(error),
        }
    }

    /// Buffers all bytes. Traps while a flush is pending, and where they are more than the budget
    /// left; nothing is buffered then.
    fn write(&mut self, bytes: Bytes) -> Result<(), StreamError>
        ensures answer { result ≡ writer_write self.old bytes }
        ensures after { self.new ≡ after_writer_write self.old bytes }
        ensures memory { NeverNoMemory result }
    {
        match self.tell() {
            Ok(()) => self.accept(bytes.as_slice()),
            Err(error) => Err(error),
        }
    }

    /// Marks a flush pending, which a turn does once nothing is buffered.
    fn flush(&mut self) -> Result<(), StreamError>
        ensures answer { result ≡ writer_flush self.old }
        ensures after { self.new ≡ after_writer_flush self.old }
        ensures memory { NeverNoMemory result }
    {
        match self.tell() {
            Ok(()) => {
                self.flushing = true;
                Ok(())
            }
            Err(error) => Err(error),
        }
    }
}

impl<K: Sink + Drop> Pollable for AsyncWriteStream<K> {
    /// Where `check_write` would answer a fault, the end, or room.
    fn ready(&mut self) -> bool
        ensures answer { result ≡ writer_is_ready self.old }
        ensures same { self.new ≡ self.old }
    {
        match self.trouble {
            Trouble::Nothing => self.permit() > 0,
            Trouble::Untold(_) | Trouble::Told => true,
        }
    }
}
