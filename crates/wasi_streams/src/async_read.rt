ghost use Rattle.std.specs.Prelude.{◌≡◌, ◌<◌, ◌≤◌, ◌==◌, ◌||◌, [], min, length, take, drop, is_some, true, false, IfOk, IfSome, None, Some};
ghost use Rattle.wasi_streams.specs.Answers.{OnNoMemory, UnlessNoMemory, NeverNoMemory};
ghost use Rattle.wasi_base.specs.Causes.{Rose};
ghost use Rattle.wasi_streams.specs.Reader.{new_reader, next_item, channel_after, reader_read, after_reader_read, reader_skip, reader_is_ready, cancelled, reader_is_idle, ReadsAhead, OnTurnFault, counted, closes, item_bytes};

use crate::block::{MOST_BYTES, block_of, shared_bytes};
use crate::reader_turn::{ReaderTurn, Waiting};
use crate::{InputStream, Pollable};
use bytes::Bytes;
use std::alloc::Global;
use std::marker::Model;
use wasi_base::{OutOfMemory, Source, StreamError};

/// A source that a task reads ahead of its reader, one item at a time. A read takes what is there
/// and never waits.
#[derive(Drop)]
pub struct AsyncReadStream<S: Source + Drop> {
    source: S,
    channel: Option<Waiting>,
    /// The channel's bytes stand at its front.
    block: Vec<u8>,
    /// The rest of the item that was taken last stands from `from` on.
    kept: Vec<u8>,
    from: usize,
    ended: bool,
    closed: bool,
}

impl<S: Source + Drop> Model for AsyncReadStream<S> {
    ghost use Rattle.std.specs.Prelude.{◌≡◌, ◌≤◌, drop, length, vec_capacity};
    ghost use Rattle.wasi_streams.specs.Reader.{Reader, item_of, FitsBlock};

    ghost Value = { Reader S };

    ghost view = { λ r. record { source = r.source; channel = item_of r.channel r.block.items; kept = drop r.from r.kept.items; ended = r.ended; closed = r.closed } };

    ghost invariant = { λ r. record {
      block : length r.block.items ≡ 65536;
      fits : FitsBlock r.channel;
      within : r.from ≤ length r.kept.items;
      room : 65536 ≤ vec_capacity r.kept;
    } };
}

impl<S: Source + Drop> AsyncReadStream<S> {
    /// Nothing read yet. Takes the memory of the channel's item and of the kept one.
    pub fn new(alloc: Global, source: S) -> Result<AsyncReadStream<S>, OutOfMemory>
        ensures { IfOk result (λ reader. reader ≡ new_reader source) }
    {
        let block = block_of(alloc, MOST_BYTES as usize)?;
        let kept = Vec::with_capacity(alloc, MOST_BYTES as usize)?;
        Ok(AsyncReadStream {
            source,
            channel: None,
            block,
            kept,
            from: 0,
            ended: false,
            closed: false,
        })
    }

    /// One step of the reader task: a read of at most 65536 bytes into the channel, where that is
    /// empty and the task goes on. Takes no memory.
    pub fn turn(&mut self) -> ReaderTurn
        ensures idle { reader_is_idle self.old ≡ true → (result ≡ ReaderTurn.Idle) × (self.new ≡ self.old) }
        ensures reads { reader_is_idle self.old ≡ false → ReadsAhead S.told self.old result self.new }
        ensures later { S.faults self.old.source ≤ S.faults self.new.source }
        ensures fault { OnTurnFault result (Rose (S.faults self.old.source) (S.faults self.new.source)) }
    {
        if self.channel.is_some() || self.ended {
            return ReaderTurn::Idle;
        }
        match self.source.read(&mut self.block) {
            Ok(0) => {
                self.channel = Some(Waiting::End);
                self.ended = true;
                ReaderTurn::End
            }
            Ok(count) => {
                self.channel = Some(Waiting::Bytes(count));
                ReaderTurn::Gave(count as u64)
            }
            Err(kind) => {
                self.channel = Some(Waiting::Fault(kind));
                self.ended = true;
                ReaderTurn::Fault(kind)
            }
        }
    }

    /// Drops what was read ahead, and closes the stream.
    pub fn cancel(&mut self)
        ensures { self.new ≡ cancelled self.old }
    {
        self.channel = None;
        self.kept.clear();
        self.from = 0;
        self.closed = true;
    }

    fn is_closed(&self) -> bool
        ensures { result ≡ self.now.closed }
    {
        self.closed
    }

    // the item that a read takes
    fn next_item(&self) -> Option<Waiting>
        ensures { result ≡ counted (next_item self.now.kept self.now.channel) }
    {
        if self.from < self.kept.len() {
            Some(Waiting::Bytes(self.kept.len() - self.from))
        } else {
            self.channel
        }
    }

    // the end or the fault in the channel is taken, and told once
    fn close_with(&mut self, told: StreamError) -> StreamError
        requires { closes (next_item self.old.kept self.old.channel) ≡ true }
        ensures told { result ≡ told }
        ensures after { self.new ≡ record { source = self.old.source; channel = None; kept = []; ended = self.old.ended; closed = true } }
    {
        self.channel = None;
        self.closed = true;
        told
    }

    // bytes in the channel are kept, where none are
    fn take_item(&mut self)
        requires { closes (next_item self.old.kept self.old.channel) ≡ false }
        ensures { self.new ≡ record self.old { channel = channel_after self.old.kept self.old.channel; kept = item_bytes (next_item self.old.kept self.old.channel) } }
    {
        if self.from < self.kept.len() {
            return;
        }
        if let Some(Waiting::Bytes(count)) = self.channel {
            self.kept.clear();
            self.from = 0;
            match self.kept.extend_from_slice(&self.block[..count]) {
                Ok(()) => self.channel = None,
                Err(_) => unreachable!(),
            }
        }
    }

    // the first kept bytes, copied
    fn copy_front(&self, into: &mut [u8])
        requires { length into.old ≤ length self.now.kept }
        ensures { into.new ≡ take (length into.old) self.now.kept }
    {
        into.copy_from_slice(&self.kept[self.from..self.from + into.len()]);
    }

    // the first kept bytes leave
    fn drop_front(&mut self, count: usize)
        requires { count ≤ length self.old.kept }
        ensures { self.new ≡ record self.old { kept = drop count self.old.kept } }
    {
        self.from += count;
    }
}

impl<S: Source + Drop> InputStream for AsyncReadStream<S> {
    /// The first bytes of the item that is there, at most `size`; the rest of it is kept. No bytes
    /// where no item is there. Its end answers Closed, its fault once a failure, and both close
    /// the stream.
    fn read(&mut self, alloc: Global, size: u64) -> Result<Bytes, StreamError>
        ensures read { UnlessNoMemory result ((result ≡ reader_read self.old size) × (self.new ≡ after_reader_read self.old size)) }
        ensures bound { IfOk result (λ bytes. length bytes ≤ size) }
        ensures memory { OnNoMemory result (self.new ≡ self.old) }
    {
        if self.is_closed() {
            return Err(StreamError::Closed);
        }
        match self.next_item() {
            None => Ok(Bytes::new()),
            Some(Waiting::Bytes(there)) => {
                let count = size.min(there as u64) as usize;
                match block_of(alloc, count) {
                    Ok(mut block) => {
                        self.take_item();
                        self.copy_front(&mut block);
                        self.drop_front(count);
                        Ok(shared_bytes(block))
                    }
                    Err(OutOfMemory) => Err(StreamError::OutOfMemory),
                }
            }
            Some(Waiting::End) => Err(self.close_with(StreamError::Closed)),
            Some(Waiting::Fault(kind)) => {
                Err(self.close_with(StreamError::LastOperationFailed(kind)))
            }
        }
    }

    fn skip(&mut self, size: u64) -> Result<u64, StreamError>
        ensures answer { result ≡ reader_skip self.old size }
        ensures after { self.new ≡ after_reader_read self.old size }
        ensures bound { IfOk result (λ count. count ≤ size) }
        ensures memory { NeverNoMemory result }
    {
        if self.is_closed() {
            return Err(StreamError::Closed);
        }
        match self.next_item() {
            None => Ok(0),
            Some(Waiting::Bytes(there)) => {
                let count = size.min(there as u64);
                self.take_item();
                self.drop_front(count as usize);
                Ok(count)
            }
            Some(Waiting::End) => Err(self.close_with(StreamError::Closed)),
            Some(Waiting::Fault(kind)) => {
                Err(self.close_with(StreamError::LastOperationFailed(kind)))
            }
        }
    }
}

impl<S: Source + Drop> Pollable for AsyncReadStream<S> {
    /// Once an item is there, or the stream is closed. It moves nothing.
    fn ready(&mut self) -> bool
        ensures answer { result ≡ reader_is_ready self.old }
        ensures same { self.new ≡ self.old }
    {
        self.is_closed() || self.next_item().is_some()
    }
}
