ghost use Rattle.std.specs.Prelude.{◌≡◌, None};
ghost use Rattle.wasi_base.specs.declared.trap_text.TrapText.TheVariants.{ConcurrentReads, ConcurrentSkips, ConcurrentCheckWrites, ConcurrentWrites, ConcurrentFlushes};
ghost use Rattle.wasi_streams.specs.Answers.{OnNoMemory, UnlessNoMemory, NeverNoMemory};
ghost use Rattle.wasi_streams.specs.Reader.{reader_read, after_reader_read, reader_skip};
ghost use Rattle.wasi_streams.specs.Writer.{writer_check_write, after_writer_check_write, writer_write, after_writer_write, writer_flush, after_writer_flush};
ghost use Rattle.wasi_cli.specs.Shared.{unless_held, after_unless_held};

use crate::Turns;
use bytes::Bytes;
use std::alloc::Global;
use wasi_base::{Sink, Source, StreamError, TrapText};
use wasi_streams::{AsyncReadStream, AsyncWriteStream, InputStream, OutputStream};

/// The stream's own read. Traps while anybody has the turn, and leaves the stream as it was then.
pub fn shared_read<S: Source + Drop>(
    alloc: Global,
    turns: &Turns,
    stream: &mut AsyncReadStream<S>,
    size: u64,
) -> Result<Bytes, StreamError>
    ensures read { UnlessNoMemory result ((result ≡ unless_held turns.now.holder ConcurrentReads (reader_read stream.old size)) × (stream.new ≡ after_unless_held turns.now.holder stream.old (after_reader_read stream.old size))) }
    ensures memory { OnNoMemory result ((turns.now.holder ≡ None) × (stream.new ≡ stream.old)) }
{
    match turns.holder() {
        None => stream.read(alloc, size),
        Some(_) => Err(StreamError::Trap(TrapText::ConcurrentReads)),
    }
}

/// The stream's own skip. Traps while anybody has the turn, and leaves the stream as it was then.
pub fn shared_skip<S: Source + Drop>(
    turns: &Turns,
    stream: &mut AsyncReadStream<S>,
    size: u64,
) -> Result<u64, StreamError>
    ensures answer { result ≡ unless_held turns.now.holder ConcurrentSkips (reader_skip stream.old size) }
    ensures after { stream.new ≡ after_unless_held turns.now.holder stream.old (after_reader_read stream.old size) }
    ensures memory { NeverNoMemory result }
{
    match turns.holder() {
        None => stream.skip(size),
        Some(_) => Err(StreamError::Trap(TrapText::ConcurrentSkips)),
    }
}

/// The stream's own `check_write`. Traps while anybody has the turn, and leaves the stream as it
/// was then.
pub fn shared_check_write<K: Sink + Drop>(
    turns: &Turns,
    stream: &mut AsyncWriteStream<K>,
) -> Result<u64, StreamError>
    ensures answer { result ≡ unless_held turns.now.holder ConcurrentCheckWrites (writer_check_write stream.old) }
    ensures after { stream.new ≡ after_unless_held turns.now.holder stream.old (after_writer_check_write stream.old) }
    ensures memory { NeverNoMemory result }
{
    match turns.holder() {
        None => stream.check_write(),
        Some(_) => Err(StreamError::Trap(TrapText::ConcurrentCheckWrites)),
    }
}

/// The stream's own write. Traps while anybody has the turn, and leaves the stream as it was then.
pub fn shared_write<K: Sink + Drop>(
    turns: &Turns,
    stream: &mut AsyncWriteStream<K>,
    bytes: Bytes,
) -> Result<(), StreamError>
    ensures answer { result ≡ unless_held turns.now.holder ConcurrentWrites (writer_write stream.old bytes) }
    ensures after { stream.new ≡ after_unless_held turns.now.holder stream.old (after_writer_write stream.old bytes) }
    ensures memory { NeverNoMemory result }
{
    match turns.holder() {
        None => stream.write(bytes),
        Some(_) => Err(StreamError::Trap(TrapText::ConcurrentWrites)),
    }
}

/// The stream's own flush. Traps while anybody has the turn, and leaves the stream as it was then.
pub fn shared_flush<K: Sink + Drop>(
    turns: &Turns,
    stream: &mut AsyncWriteStream<K>,
) -> Result<(), StreamError>
    ensures answer { result ≡ unless_held turns.now.holder ConcurrentFlushes (writer_flush stream.old) }
    ensures after { stream.new ≡ after_unless_held turns.now.holder stream.old (after_writer_flush stream.old) }
    ensures memory { NeverNoMemory result }
{
    match turns.holder() {
        None => stream.flush(),
        Some(_) => Err(StreamError::Trap(TrapText::ConcurrentFlushes)),
    }
}

/// Does nothing: the host keeps a shared stream open for its other owners.
pub fn shared_cancel<S: Source + Drop>(_turns: &Turns, _stream: &mut AsyncReadStream<S>)
    ensures { _stream.new ≡ _stream.old }
{}
