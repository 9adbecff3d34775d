ghost use Rattle.std.specs.Prelude.{true, ◌≡◌, ◌≤◌, [], length, IfOk};
ghost use Rattle.wasi_streams.specs.Answers.{NeverNoMemory};
ghost use Rattle.wasi_streams.specs.MemoryPipes.{with_bytes, out_pipe_check_write, out_pipe_write, after_out_pipe_write, out_pipe_flush, out_pipe_poll_write, after_out_pipe_poll_write};

use crate::{OutputStream, Pollable};
use bytes::Bytes;
use std::alloc::Global;
use std::marker::Model;
use wasi_base::{OutOfMemory, StreamError, TrapText};

/// An output that keeps all that it takes, up to its capacity.
#[derive(Drop)]
pub struct MemoryOutputPipe {
    bytes: Vec<u8>,
    room: usize,
}

impl Model for MemoryOutputPipe {
    ghost use Rattle.std.specs.Prelude.{◌≤◌, ◌+◌, length, vec_capacity};
    ghost use Rattle.wasi_streams.specs.MemoryPipes.{OutPipe};

    ghost Value = { OutPipe };

    ghost view = { λ pipe. record { contents = pipe.bytes.items; room = pipe.room } };

    ghost invariant = { λ pipe. length pipe.bytes.items + pipe.room ≤ vec_capacity pipe.bytes };
}

impl MemoryOutputPipe {
    /// An empty pipe. All memory that it will need is taken here.
    pub fn new(alloc: Global, capacity: u64) -> Result<MemoryOutputPipe, OutOfMemory>
        ensures { IfOk result (λ pipe. pipe ≡ record { contents = []; room = capacity }) }
    {
        let Ok(room) = usize::try_from(capacity) else {
            return Err(OutOfMemory);
        };
        let bytes = Vec::with_capacity(alloc, room)?;
        Ok(MemoryOutputPipe { bytes, room })
    }

    /// All bytes that it took, in order.
    pub fn contents(&self) -> &[u8]
        ensures { result.now ≡ self.now.contents }
    {
        self.bytes.as_slice()
    }

    /// Takes the first bytes of the piece, as many as fit, and answers their number. Takes no
    /// memory.
    pub fn poll_write(&mut self, piece: &[u8]) -> u64
        ensures answer { result ≡ out_pipe_poll_write self.old piece.now }
        ensures after { self.new ≡ after_out_pipe_poll_write self.old piece.now }
    {
        let count = piece.len().min(self.room());
        self.keep(&piece[..count]);
        count as u64
    }

    fn room(&self) -> usize
        ensures { result ≡ self.now.room }
    {
        self.room
    }

    // keeps these bytes
    fn keep(&mut self, bytes: &[u8])
        requires { length bytes.now ≤ self.old.room }
        ensures { self.new ≡ with_bytes self.old bytes.now }
    {
        self.room -= bytes.len();
        match self.bytes.extend_from_slice(bytes) {
            Ok(()) => {}
            Err(_) => unreachable!(),
        }
    }
}

impl OutputStream for MemoryOutputPipe {
    /// The room left; Closed where there is none.
    fn check_write(&mut self) -> Result<u64, StreamError>
        ensures answer { result ≡ out_pipe_check_write self.old }
        ensures same { self.new ≡ self.old }
        ensures memory { NeverNoMemory result }
    {
        match self.room() {
            0 => Err(StreamError::Closed),
            room => Ok(room as u64),
        }
    }

    /// Takes all bytes. More than the room traps and takes nothing.
    fn write(&mut self, bytes: Bytes) -> Result<(), StreamError>
        ensures answer { result ≡ out_pipe_write self.old bytes }
        ensures after { self.new ≡ after_out_pipe_write self.old bytes }
        ensures memory { NeverNoMemory result }
    {
        if bytes.len() > self.room() {
            return Err(StreamError::Trap(TrapText::WriteBeyondCapacity));
        }
        self.keep(bytes.as_slice());
        Ok(())
    }

    /// Does nothing.
    fn flush(&mut self) -> Result<(), StreamError>
        ensures answer { result ≡ out_pipe_flush }
        ensures same { self.new ≡ self.old }
        ensures memory { NeverNoMemory result }
    {
        Ok(())
    }
}

impl Pollable for MemoryOutputPipe {
    /// Always.
    fn ready(&mut self) -> bool
        ensures answer { result ≡ true }
        ensures same { self.new ≡ self.old }
    {
        true
    }
}
