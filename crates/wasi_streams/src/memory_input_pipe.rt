ghost use Rattle.std.specs.Prelude.{true, ◌≡◌, ◌≤◌, ◌==◌, min, length, take, drop, IfOk, OnErr};
ghost use Rattle.wasi_streams.specs.Answers.{OnNoMemory, UnlessNoMemory, NeverNoMemory};
ghost use Rattle.wasi_streams.specs.MemoryPipes.{pipe_read, after_pipe_read, pipe_skip, pipe_poll_read};

use crate::{InputStream, Pollable};
use bytes::Bytes;
use std::alloc::Global;
use std::marker::Model;
use wasi_base::{OutOfMemory, Polled, StreamError};

/// An input whose bytes are all there from the start. An empty pipe is closed. Contracts see the
/// bytes that are left.
#[derive(Drop)]
pub struct MemoryInputPipe {
    bytes: Bytes,
}

impl Model for MemoryInputPipe {
    ghost use Rattle.std.specs.Prelude.{List, ℕ};

    ghost Value = { List ℕ };

    ghost view = { λ pipe. pipe.bytes };
}

impl MemoryInputPipe {
    pub fn new(bytes: Bytes) -> MemoryInputPipe
        ensures { result ≡ bytes }
    {
        MemoryInputPipe { bytes }
    }

    /// The first bytes, as many as there are and fit; never pending. Out of memory leaves the
    /// pipe as it was.
    pub fn poll_read(&mut self, room: u64) -> Result<Polled<Bytes>, OutOfMemory>
        ensures read { IfOk result (λ polled. (polled ≡ pipe_poll_read self.old room) × (self.new ≡ after_pipe_read self.old room)) }
        ensures memory { OnErr result (self.new ≡ self.old) }
    {
        match self.split_front(room) {
            Ok(front) => Ok(Polled::Ready(front)),
            Err(error) => Err(error),
        }
    }

    // how many bytes a read of this size gives
    fn count_for(&self, size: u64) -> usize
        ensures { result ≡ min size (length self.now) }
    {
        let left = self.bytes.len();
        if size < left as u64 {
            size as usize
        } else {
            left
        }
    }

    // takes the first bytes, as many as there are and fit
    fn split_front(&mut self, size: u64) -> Result<Bytes, OutOfMemory>
        ensures read { IfOk result (λ bytes. (bytes ≡ take size self.old) × (self.new ≡ drop size self.old)) }
        ensures memory { OnErr result (self.new ≡ self.old) }
    {
        let count = self.count_for(size);
        match self.bytes.split_to(count) {
            Ok(bytes) => Ok(bytes),
            Err(_) => Err(OutOfMemory),
        }
    }

    // drops the first bytes, as many as there are and fit
    fn drop_front(&mut self, size: u64) -> u64
        ensures count { result ≡ length (take size self.old) }
        ensures left { self.new ≡ drop size self.old }
    {
        let count = self.count_for(size);
        self.bytes.advance(count);
        count as u64
    }

    fn is_empty(&self) -> bool
        ensures { result ≡ (length self.now == 0) }
    {
        self.bytes.is_empty()
    }
}

impl InputStream for MemoryInputPipe {
    /// The first bytes, as many as there are and fit. An empty pipe answers Closed, for size 0
    /// too.
    fn read(&mut self, _alloc: Global, size: u64) -> Result<Bytes, StreamError>
        ensures read { UnlessNoMemory result ((result ≡ pipe_read self.old size) × (self.new ≡ after_pipe_read self.old size)) }
        ensures bound { IfOk result (λ bytes. length bytes ≤ size) }
        ensures memory { OnNoMemory result (self.new ≡ self.old) }
    {
        if self.is_empty() {
            return Err(StreamError::Closed);
        }
        match self.split_front(size) {
            Ok(front) => Ok(front),
            Err(OutOfMemory) => Err(StreamError::OutOfMemory),
        }
    }

    fn skip(&mut self, size: u64) -> Result<u64, StreamError>
        ensures answer { result ≡ pipe_skip self.old size }
        ensures after { self.new ≡ after_pipe_read self.old size }
        ensures bound { IfOk result (λ count. count ≤ size) }
        ensures memory { NeverNoMemory result }
    {
        if self.is_empty() {
            Err(StreamError::Closed)
        } else {
            Ok(self.drop_front(size))
        }
    }
}

impl Pollable for MemoryInputPipe {
    /// Always.
    fn ready(&mut self) -> bool
        ensures answer { result ≡ true }
        ensures same { self.new ≡ self.old }
    {
        true
    }
}
