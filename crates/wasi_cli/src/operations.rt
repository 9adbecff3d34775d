ghost use Rattle.std.specs.Prelude.{◌≡◌, ◌<◌, ◌≤◌, length, IfOk, OnErr, Ok};
ghost use Rattle.wasi_streams.specs.Writer.{writer_check_write, after_writer_write};
ghost use Rattle.wasi_cli.specs.Operations.{IsTold, outcome_of, read_outcome, after_read, write_outcome, after_write, flush_outcome, after_flush, flushed_outcome, after_flushed};
ghost use Rattle.wasi_cli.specs.declared.outcome.Outcome.TheVariants.{Gives};

use crate::outcome::Outcome;
use bytes::Bytes;
use std::alloc::Global;
use wasi_base::{OutOfMemory, Sink, Source, StreamError};
use wasi_streams::{AsyncReadStream, AsyncWriteStream, InputStream, OutputStream, Pollable};

// what a call of the stream came to; a trap never comes here
fn outcome_of<T: Drop>(answer: Result<T, StreamError>) -> Outcome<T>
    requires { IsTold answer }
    ensures { result ≡ outcome_of answer }
{
    match answer {
        Ok(value) => Outcome::Gives(value),
        Err(StreamError::Closed) => Outcome::Closes,
        Err(StreamError::LastOperationFailed(kind)) => Outcome::Fails(kind),
        Err(StreamError::Trap(_)) | Err(StreamError::OutOfMemory) => unreachable!(),
    }
}

/// Reads once the stream is ready. Out of memory leaves the stream as it was.
pub(crate) fn read_once_ready<S: Source + Drop>(
    alloc: Global,
    stream: &mut AsyncReadStream<S>,
    room: u64,
) -> Result<Outcome<Bytes>, OutOfMemory>
    ensures read { IfOk result (λ outcome. (outcome ≡ read_outcome stream.old room) × (stream.new ≡ after_read stream.old room)) }
    ensures memory { OnErr result (stream.new ≡ stream.old) }
{
    if !stream.ready() {
        return Ok(Outcome::Waits);
    }
    match stream.read(alloc, room) {
        Ok(bytes) => Ok(Outcome::Gives(bytes)),
        Err(StreamError::Closed) => Ok(Outcome::Closes),
        Err(StreamError::LastOperationFailed(kind)) => Ok(Outcome::Fails(kind)),
        Err(StreamError::OutOfMemory) => Err(OutOfMemory),
        Err(StreamError::Trap(_)) => unreachable!(),
    }
}

// writes a part that the stream permits
fn write_part<K: Sink + Drop>(
    alloc: Global,
    stream: &mut AsyncWriteStream<K>,
    part: &[u8],
    permit: u64,
) -> Result<Outcome<u64>, OutOfMemory>
    requires permitted { writer_check_write stream.old ≡ Ok permit }
    requires some { 0 < length part.now }
    requires fits { length part.now ≤ permit }
    ensures write { IfOk result (λ outcome. (outcome ≡ Gives (length part.now)) × (stream.new ≡ after_writer_write stream.old part.now)) }
    ensures memory { OnErr result (stream.new ≡ stream.old) }
{
    let bytes = match Bytes::copy_from_slice(alloc, part) {
        Ok(bytes) => bytes,
        Err(_) => return Err(OutOfMemory),
    };
    match stream.write(bytes) {
        Ok(()) => Ok(Outcome::Gives(part.len() as u64)),
        Err(_) => unreachable!(),
    }
}

/// Writes as much of the piece as the stream permits, once it permits any. Out of memory leaves
/// the stream as it was.
pub(crate) fn write_once_permitted<K: Sink + Drop>(
    alloc: Global,
    stream: &mut AsyncWriteStream<K>,
    piece: &[u8],
) -> Result<Outcome<u64>, OutOfMemory>
    ensures write { IfOk result (λ outcome. (outcome ≡ write_outcome stream.old piece.now) × (stream.new ≡ after_write stream.old piece.now)) }
    ensures memory { OnErr result (stream.new ≡ stream.old) }
{
    match stream.check_write() {
        Ok(permit) => {
            let count = permit.min(piece.len() as u64) as usize;
            if count == 0 {
                return Ok(Outcome::Waits);
            }
            write_part(alloc, stream, &piece[..count], permit)
        }
        Err(error) => Ok(outcome_of(Err(error))),
    }
}

/// Asks for a flush once the stream is ready.
pub(crate) fn flush_once_ready<K: Sink + Drop>(stream: &mut AsyncWriteStream<K>) -> Outcome<()>
    ensures outcome { result ≡ flush_outcome stream.old }
    ensures after { stream.new ≡ after_flush stream.old }
{
    if !stream.ready() {
        return Outcome::Waits;
    }
    outcome_of(stream.flush())
}

/// The end of a flush: waits until the stream is ready again, and picks up a fault.
pub(crate) fn flushed_once_ready<K: Sink + Drop>(stream: &mut AsyncWriteStream<K>) -> Outcome<()>
    ensures outcome { result ≡ flushed_outcome stream.old }
    ensures after { stream.new ≡ after_flushed stream.old }
{
    if !stream.ready() {
        return Outcome::Waits;
    }
    match stream.check_write() {
        Ok(_) => Outcome::Gives(()),
        Err(error) => outcome_of(Err(error)),
    }
}
