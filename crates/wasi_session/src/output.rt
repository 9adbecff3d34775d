ghost use Rattle.std.specs.Prelude.{◌≡◌, IfOk, OnOk, OnErr};
ghost use Rattle.wasi_host.specs.OutStreams.{output_check_write, after_output_check_write, output_write, after_output_write, output_flush, after_output_flush, output_poll_write, after_output_poll_write, output_poll_flush, after_output_poll_flush, output_is_ready, output_block, after_output_block, output_without};
ghost use Rattle.wasi_host.specs.Tasks.{output_turned};
ghost use Rattle.wasi_host.specs.Calls.{sent, polled_write, polled_flush, result_told, poll_told, is_done};
ghost use Rattle.wasi_session.specs.Makes.{IsMake};

use crate::answers::{mistaken, told_count, told_done, told_polled_count, told_polled_done};
use crate::room::shared_bytes;
use bytes::Bytes;
use std::alloc::Global;
use wasi_base::{OutOfMemory, Polled, StreamError};
use wasi_cli::{Owner, StdoutHandle};
use wasi_host::{Deed, Entry, Leaver, OutStream, StreamEntry};
use wasi_reply::{Told, Worked};
use wasi_script::{EntryCall, Standard};
use wasi_streams::OutputStream;

/// What a call on an entry of an output asks to be done. Out of memory leaves the output as it
/// was, and a new entry is made of an output that is as it was.
pub fn sent(
    alloc: Global,
    stream: &mut OutStream,
    call: &EntryCall,
    context: Option<u32>,
    to: Standard,
    at: Owner,
    entry: StreamEntry,
) -> Result<Deed, OutOfMemory>
    ensures deed { IfOk result (λ deed. deed ≡ (sent call.now context to at entry stream.old).deed) }
    ensures left { OnOk result (stream.new ≡ (sent call.now context to at entry stream.old).left) }
    ensures made { IfOk result (λ deed. IsMake deed → stream.new ≡ stream.old) }
    ensures err { OnErr result (stream.new ≡ stream.old) }
{
    match (call, entry) {
        (EntryCall::CheckWrite, StreamEntry::Plain) => Ok(Deed::Tell(check_write(stream))),
        (EntryCall::Write { bytes }, StreamEntry::Plain) => {
            let bytes = shared_bytes(alloc, bytes)?;
            Ok(Deed::Tell(write(stream, bytes)))
        }
        (EntryCall::Flush, StreamEntry::Plain) => Ok(Deed::Tell(flush(stream))),
        (EntryCall::Subscribe, StreamEntry::Plain) => Ok(Deed::Make {
            entry: Entry::Stream {
                context,
                stream: to,
                entry: StreamEntry::Pollable,
            },
            parent: Some(u64::from(at.number)),
        }),
        (EntryCall::PollWrite { bytes }, StreamEntry::Polled(handle)) => {
            let bytes = shared_bytes(alloc, bytes)?;
            polled_write(alloc, stream, context, to, at, handle, bytes.as_slice())
        }
        (EntryCall::PollFlush, StreamEntry::Polled(handle)) => {
            polled_flush(stream, context, to, at, handle)
        }
        (EntryCall::Ready, StreamEntry::Pollable) => {
            Ok(Deed::Tell(Told::Truth(is_ready(stream))))
        }
        (EntryCall::Block, StreamEntry::Pollable) => {
            Ok(Deed::Tell(Told::Truth(block(stream, at)?)))
        }
        _ => Ok(mistaken()),
    }
}

/// The same on a closed output, which no line declares.
pub fn sent_closed(
    alloc: Global,
    call: &EntryCall,
    context: Option<u32>,
    to: Standard,
    at: Owner,
    entry: StreamEntry,
) -> Result<Deed, OutOfMemory>
    ensures { IfOk result (λ deed. deed ≡ (sent call.now context to at entry OutStream.Closed).deed) }
{
    let mut closed = OutStream::Closed;
    sent(alloc, &mut closed, call, context, to, at, entry)
}

fn check_write(stream: &mut OutStream) -> Told
    ensures told { result ≡ result_told Told.Count (output_check_write stream.old) }
    ensures left { stream.new ≡ after_output_check_write stream.old }
{
    let answer = match stream {
        OutStream::Closed => Err(StreamError::Closed),
        OutStream::Sink => Ok(u64::MAX),
        OutStream::Pipe(pipe) => pipe.check_write(),
        OutStream::File(file) => file.check_write(),
        OutStream::Stdio(output) => output.check_write(),
        OutStream::Buffered(output) => output.check_write(),
    };
    told_count(answer)
}

fn write(stream: &mut OutStream, bytes: Bytes) -> Told
    ensures told { result ≡ result_told is_done (output_write stream.old bytes) }
    ensures left { stream.new ≡ after_output_write stream.old bytes }
{
    let answer = match stream {
        OutStream::Closed => Err(StreamError::Closed),
        OutStream::Sink => Ok(()),
        OutStream::Pipe(pipe) => pipe.write(bytes),
        OutStream::File(file) => file.write(bytes),
        OutStream::Stdio(output) => output.write(bytes),
        OutStream::Buffered(output) => output.write(bytes),
    };
    told_done(answer)
}

fn flush(stream: &mut OutStream) -> Told
    ensures told { result ≡ result_told is_done (output_flush stream.old) }
    ensures left { stream.new ≡ after_output_flush stream.old }
{
    let answer = match stream {
        OutStream::Closed => Err(StreamError::Closed),
        OutStream::Sink => Ok(()),
        OutStream::Pipe(pipe) => pipe.flush(),
        OutStream::File(file) => file.flush(),
        OutStream::Stdio(output) => output.flush(),
        OutStream::Buffered(output) => output.flush(),
    };
    told_done(answer)
}

// A poll of an output that guests share by turns keeps its handle in its entry; any other has none.
fn polled_write(
    alloc: Global,
    stream: &mut OutStream,
    context: Option<u32>,
    to: Standard,
    at: Owner,
    handle: StdoutHandle,
    piece: &[u8],
) -> Result<Deed, OutOfMemory>
    ensures deed { IfOk result (λ deed. deed ≡ (polled_write context to at handle stream.old piece.now).deed) }
    ensures left { OnOk result (stream.new ≡ (polled_write context to at handle stream.old piece.now).left) }
    ensures made { IfOk result (λ deed. IsMake deed → stream.new ≡ stream.old) }
    ensures err { OnErr result (stream.new ≡ stream.old) }
{
    match stream {
        OutStream::Buffered(output) => {
            let mut handle = handle;
            let answer = output.poll_write(alloc, at, &mut handle, piece)?;
            Ok(kept(context, to, at, handle, told_polled_count(answer)))
        }
        OutStream::Closed
        | OutStream::Sink
        | OutStream::Pipe(_)
        | OutStream::File(_)
        | OutStream::Stdio(_) => Ok(Deed::Tell(poll_write(stream, piece))),
    }
}

fn polled_flush(
    stream: &mut OutStream,
    context: Option<u32>,
    to: Standard,
    at: Owner,
    handle: StdoutHandle,
) -> Result<Deed, OutOfMemory>
    ensures deed { IfOk result (λ deed. deed ≡ (polled_flush context to at handle stream.old).deed) }
    ensures left { OnOk result (stream.new ≡ (polled_flush context to at handle stream.old).left) }
    ensures made { IfOk result (λ deed. IsMake deed → stream.new ≡ stream.old) }
    ensures err { OnErr result (stream.new ≡ stream.old) }
{
    match stream {
        OutStream::Buffered(output) => {
            let mut handle = handle;
            let answer = output.poll_flush(at, &mut handle)?;
            Ok(kept(context, to, at, handle, told_polled_done(answer)))
        }
        OutStream::Closed
        | OutStream::Sink
        | OutStream::Pipe(_)
        | OutStream::File(_)
        | OutStream::Stdio(_) => Ok(Deed::Tell(poll_flush(stream))),
    }
}

// the entry keeps the handle that the poll leaves
fn kept(context: Option<u32>, to: Standard, at: Owner, handle: StdoutHandle, told: Told) -> Deed
    ensures { result ≡ Deed.Change at.number (Entry.Stream context to (StreamEntry.Polled handle)) told }
{
    Deed::Change {
        number: u64::from(at.number),
        entry: Entry::Stream {
            context,
            stream: to,
            entry: StreamEntry::Polled(handle),
        },
        told,
    }
}

fn poll_write(stream: &mut OutStream, piece: &[u8]) -> Told
    ensures told { result ≡ poll_told Told.Count (output_poll_write stream.old piece.now) }
    ensures left { stream.new ≡ after_output_poll_write stream.old piece.now }
{
    let answer = match stream {
        OutStream::Closed => Polled::Ready(0),
        OutStream::Sink => Polled::Ready(piece.len() as u64),
        OutStream::Pipe(pipe) => Polled::Ready(pipe.poll_write(piece)),
        OutStream::File(file) => file.poll_write(piece),
        OutStream::Stdio(output) => output.poll_write(piece),
        OutStream::Buffered(_) => Polled::Pending,
    };
    told_polled_count(answer)
}

fn poll_flush(stream: &mut OutStream) -> Told
    ensures told { result ≡ poll_told is_done (output_poll_flush stream.old) }
    ensures left { stream.new ≡ after_output_poll_flush stream.old }
{
    let answer = match stream {
        OutStream::File(file) => file.poll_flush(),
        OutStream::Stdio(output) => output.poll_flush(),
        OutStream::Buffered(_) => Polled::Pending,
        OutStream::Closed | OutStream::Sink | OutStream::Pipe(_) => Polled::Ready(()),
    };
    told_polled_done(answer)
}

fn is_ready(stream: &mut OutStream) -> bool
    ensures answer { result ≡ output_is_ready stream.old }
    ensures same { stream.new ≡ stream.old }
{
    match stream {
        OutStream::Buffered(output) => output.ready(),
        OutStream::Closed
        | OutStream::Sink
        | OutStream::Pipe(_)
        | OutStream::File(_)
        | OutStream::Stdio(_) => true,
    }
}

// A block of a pollable under its own number.
fn block(stream: &mut OutStream, at: Owner) -> Result<bool, OutOfMemory>
    ensures answer { IfOk result (λ over. over ≡ output_block stream.old at) }
    ensures left { OnOk result (stream.new ≡ after_output_block stream.old at) }
    ensures err { OnErr result (stream.new ≡ stream.old) }
{
    match stream {
        OutStream::Buffered(output) => output.block(at),
        OutStream::Closed
        | OutStream::Sink
        | OutStream::Pipe(_)
        | OutStream::File(_)
        | OutStream::Stdio(_) => Ok(true),
    }
}

/// Who leaves has no turn on an output any more, and waits for none.
pub fn leave_output(stream: &mut OutStream, who: Leaver)
    ensures { stream.new ≡ output_without who stream.old }
{
    match stream {
        OutStream::Buffered(output) => output.leave(who),
        OutStream::Closed
        | OutStream::Sink
        | OutStream::Pipe(_)
        | OutStream::File(_)
        | OutStream::Stdio(_) => {}
    }
}

/// A turn of the task of an output; one that has none has nothing to do.
pub fn write_behind(stream: &mut OutStream) -> Worked
    ensures told { result ≡ (output_turned stream.old).told }
    ensures left { stream.new ≡ (output_turned stream.old).left }
{
    match stream {
        OutStream::Buffered(output) => output.turn(),
        OutStream::Closed
        | OutStream::Sink
        | OutStream::Pipe(_)
        | OutStream::File(_)
        | OutStream::Stdio(_) => Worked::Idle,
    }
}
