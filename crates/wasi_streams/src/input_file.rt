ghost use Rattle.std.specs.Prelude.{true, ◌≡◌, ◌<◌, ◌≤◌, [], length, IfOk, OnErr, Ok, Some};
ghost use Rattle.wasi_base.specs.Source.{Told, Gives};
ghost use Rattle.wasi_base.specs.declared.polled.Polled.TheVariants.{Ready};
ghost use Rattle.wasi_streams.specs.Answers.{OnNoMemory, UnlessNoMemory, NeverNoMemory, TellsFault, PollsFault};
ghost use Rattle.wasi_streams.specs.Files.{file_answer, file_skip_answer, file_poll_answer, file_room, file_read, after_file_read, file_skip, file_poll_read, ReadsOnce};
ghost use Rattle.wasi_streams.specs.Pieces.{given_by, FaultOf};

use crate::block::{MOST_BYTES, blank, block_of, shared_bytes};
use crate::{InputStream, Pollable};
use bytes::Bytes;
use std::alloc::Global;
use wasi_base::{IoKind, OutOfMemory, Polled, Source, StreamError};

/// What one read of a source gave.
#[derive(Drop)]
pub(crate) enum Piece {
    Bytes(Bytes),
    End,
    Fault(IoKind),
}

/// A source as an input. Each call reads the source once, at most 65536 bytes. A fault leaves the
/// stream open.
#[derive(Drop)]
pub struct InputFile<S: Source + Drop> {
    source: S,
}

// the room of one read
fn room_for(size: u64) -> usize
    ensures value { result ≡ file_room size }
    ensures some { 0 < size → 0 < result }
{
    size.min(MOST_BYTES) as usize
}

// one read of the source into a block whose memory is taken before
fn read_piece<S: Source>(alloc: Global, source: &mut S, room: usize) -> Result<Piece, OutOfMemory>
    requires { 0 < room }
    ensures gives { IfOk result (λ piece. Gives (S.told source.old) room (given_by piece) (S.told source.new)) }
    ensures memory { OnErr result (source.new ≡ source.old) }
    ensures later { S.faults source.old ≤ S.faults source.new }
    ensures fault { IfOk result (λ piece. FaultOf (S.faults source.old) piece (S.faults source.new)) }
{
    match block_of(alloc, room) {
        Ok(block) => Ok(read_into(source, block)),
        Err(error) => Err(error),
    }
}

fn read_into<S: Source>(source: &mut S, mut block: Vec<u8>) -> Piece
    requires { 0 < length block.items }
    ensures gives { Gives (S.told source.old) (length block.items) (given_by result) (S.told source.new) }
    ensures later { S.faults source.old ≤ S.faults source.new }
    ensures fault { FaultOf (S.faults source.old) result (S.faults source.new) }
{
    match source.read(&mut block) {
        Ok(0) => Piece::End,
        Ok(count) => {
            block.truncate(count);
            Piece::Bytes(shared_bytes(block))
        }
        Err(kind) => Piece::Fault(kind),
    }
}

impl<S: Source + Drop> InputFile<S> {
    pub fn new(source: S) -> InputFile<S>
        ensures { result.source ≡ source }
    {
        InputFile { source }
    }

    /// One read of the source, of at most 65536 bytes; no bytes at its end and for room 0. Never
    /// pending. Out of memory leaves the stream as it was.
    pub fn poll_read(&mut self, alloc: Global, room: u64) -> Result<Polled<Bytes>, OutOfMemory>
        ensures told { (t : Told) → S.told self.old.source ≡ Some t → IfOk result (λ polled. (polled ≡ file_poll_read t room) × (S.told self.new.source ≡ Some (after_file_read t room))) }
        ensures nothing { room ≡ 0 → (result ≡ Ok (Ready [])) × (self.new ≡ self.old) }
        ensures read { 0 < room → IfOk result (λ polled. ReadsOnce file_poll_answer (S.told self.old.source) (file_room room) polled (S.told self.new.source)) }
        ensures memory { OnErr result (self.new ≡ self.old) }
        ensures cause { IfOk result (λ polled. PollsFault (S.faults self.old.source) (S.faults self.new.source) polled) }
    {
        if room == 0 {
            return Ok(Polled::Ready(Bytes::new()));
        }
        match read_piece(alloc, &mut self.source, room_for(room)) {
            Ok(Piece::Bytes(bytes)) => Ok(Polled::Ready(bytes)),
            Ok(Piece::End) => Ok(Polled::Ready(Bytes::new())),
            Ok(Piece::Fault(kind)) => Ok(Polled::Failed(kind)),
            Err(error) => Err(error),
        }
    }
}

impl<S: Source + Drop> InputStream for InputFile<S> {
    /// One read of the source, of at most 65536 bytes. Size 0 gives no bytes and reads nothing.
    fn read(&mut self, alloc: Global, size: u64) -> Result<Bytes, StreamError>
        ensures told { (t : Told) → S.told self.old.source ≡ Some t → UnlessNoMemory result ((result ≡ file_read t size) × (S.told self.new.source ≡ Some (after_file_read t size))) }
        ensures nothing { size ≡ 0 → (result ≡ Ok []) × (self.new ≡ self.old) }
        ensures read { 0 < size → UnlessNoMemory result (ReadsOnce file_answer (S.told self.old.source) (file_room size) result (S.told self.new.source)) }
        ensures cause { TellsFault (S.faults self.old.source) (S.faults self.new.source) result }
        ensures bound { IfOk result (λ bytes. length bytes ≤ size) }
        ensures memory { OnNoMemory result (self.new ≡ self.old) }
    {
        if size == 0 {
            return Ok(Bytes::new());
        }
        match read_piece(alloc, &mut self.source, room_for(size)) {
            Ok(Piece::Bytes(bytes)) => Ok(bytes),
            Ok(Piece::End) => Err(StreamError::Closed),
            Ok(Piece::Fault(kind)) => Err(StreamError::LastOperationFailed(kind)),
            Err(OutOfMemory) => Err(StreamError::OutOfMemory),
        }
    }

    fn skip(&mut self, size: u64) -> Result<u64, StreamError>
        ensures told { (t : Told) → S.told self.old.source ≡ Some t → (result ≡ file_skip t size) × (S.told self.new.source ≡ Some (after_file_read t size)) }
        ensures nothing { size ≡ 0 → (result ≡ Ok 0) × (self.new ≡ self.old) }
        ensures read { 0 < size → ReadsOnce file_skip_answer (S.told self.old.source) (file_room size) result (S.told self.new.source) }
        ensures cause { TellsFault (S.faults self.old.source) (S.faults self.new.source) result }
        ensures bound { IfOk result (λ count. count ≤ size) }
        ensures memory { NeverNoMemory result }
    {
        if size == 0 {
            return Ok(0);
        }
        let mut room = blank();
        let part = &mut room[..room_for(size)];
        match self.source.read(part) {
            Ok(0) => Err(StreamError::Closed),
            Ok(count) => Ok(count as u64),
            Err(kind) => Err(StreamError::LastOperationFailed(kind)),
        }
    }
}

impl<S: Source + Drop> Pollable for InputFile<S> {
    /// Always.
    fn ready(&mut self) -> bool
        ensures answer { result ≡ true }
        ensures same { self.new ≡ self.old }
    {
        true
    }
}
