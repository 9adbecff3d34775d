ghost use Rattle.std.specs.Prelude.{◌≡◌, IfOk, OnOk, OnErr};
ghost use Rattle.wasi_host.specs.InStreams.{input_read, input_skip, after_input_read, input_poll_read, after_input_poll_read, input_is_ready, input_block, after_input_block, input_without};
ghost use Rattle.wasi_host.specs.Tasks.{input_turned};
ghost use Rattle.wasi_host.specs.declared.stream.InStream.TheVariants as in_stream;
ghost use Rattle.wasi_host.specs.Calls.{called, polled_read, result_told, poll_told};
ghost use Rattle.wasi_session.specs.Makes.{IsMake};

use crate::answers::{mistaken, told_count};
use bytes::Bytes;
use std::alloc::Global;
use wasi_base::{OutOfMemory, Polled, StreamError};
use wasi_cli::{Owner, StdoutHandle};
use wasi_host::{AsyncInput, Deed, Entry, InStream, Leaver, StreamEntry};
use wasi_reply::{Piece, Told, Worked};
use wasi_script::{EntryCall, Standard};
use wasi_streams::InputStream;

/// What a call on an entry of an input asks to be done. Out of memory leaves the input as it was,
/// and a new entry is made of an input that is as it was.
pub fn called(
    alloc: Global,
    stream: &mut InStream,
    call: &EntryCall,
    context: Option<u32>,
    at: Owner,
    entry: StreamEntry,
) -> Result<Deed, OutOfMemory>
    ensures deed { IfOk result (λ deed. deed ≡ (called call.now context at entry stream.old).deed) }
    ensures left { OnOk result (stream.new ≡ (called call.now context at entry stream.old).left) }
    ensures made { IfOk result (λ deed. IsMake deed → stream.new ≡ stream.old) }
    ensures err { OnErr result (stream.new ≡ stream.old) }
{
    match (call, entry) {
        (EntryCall::Read { size }, StreamEntry::Plain) => {
            Ok(Deed::Tell(read(alloc, stream, *size)?))
        }
        (EntryCall::Skip { size }, StreamEntry::Plain) => Ok(Deed::Tell(skip(stream, *size))),
        (EntryCall::Subscribe, StreamEntry::Plain) => Ok(Deed::Make {
            entry: Entry::Stream {
                context,
                stream: Standard::Input,
                entry: StreamEntry::Pollable,
            },
            parent: Some(u64::from(at.number)),
        }),
        (EntryCall::PollRead { room }, StreamEntry::Polled(handle)) => {
            polled_read(alloc, stream, context, at, handle, *room)
        }
        (EntryCall::Ready, StreamEntry::Pollable) => {
            Ok(Deed::Tell(Told::Truth(is_ready(stream))))
        }
        (EntryCall::Block, StreamEntry::Pollable) => {
            Ok(Deed::Tell(Told::Truth(block(stream, at)?)))
        }
        _ => Ok(mistaken()),
    }
}

/// The same on an input at its end, which no line declares.
pub fn called_closed(
    alloc: Global,
    call: &EntryCall,
    context: Option<u32>,
    at: Owner,
    entry: StreamEntry,
) -> Result<Deed, OutOfMemory>
    ensures { IfOk result (λ deed. deed ≡ (called call.now context at entry InStream.Closed).deed) }
{
    let mut closed = InStream::Closed;
    called(alloc, &mut closed, call, context, at, entry)
}

fn read(alloc: Global, stream: &mut InStream, size: u64) -> Result<Told, OutOfMemory>
    ensures told { IfOk result (λ told. told ≡ result_told Told.Bytes (input_read stream.old size)) }
    ensures left { OnOk result (stream.new ≡ after_input_read stream.old size) }
    ensures err { OnErr result (stream.new ≡ stream.old) }
{
    let answer = match stream {
        InStream::Pipe(pipe) => pipe.read(alloc, size),
        InStream::File(file) => file.read(alloc, size),
        InStream::Async(input) => input.read(alloc, size),
        InStream::Closed => Err(StreamError::Closed),
    };
    match answer {
        Ok(bytes) => Ok(Told::Bytes(Piece::shared(bytes))),
        Err(StreamError::Closed) => Ok(Told::Closed),
        Err(StreamError::LastOperationFailed(kind)) => Ok(Told::Failed(kind)),
        Err(StreamError::Trap(text)) => Ok(Told::Trap(text)),
        Err(StreamError::OutOfMemory) => Err(OutOfMemory),
    }
}

fn skip(stream: &mut InStream, size: u64) -> Told
    ensures told { result ≡ result_told Told.Count (input_skip stream.old size) }
    ensures left { stream.new ≡ after_input_read stream.old size }
{
    let answer = match stream {
        InStream::Pipe(pipe) => pipe.skip(size),
        InStream::File(file) => file.skip(size),
        InStream::Async(input) => input.skip(size),
        InStream::Closed => Err(StreamError::Closed),
    };
    told_count(answer)
}

// A poll of an input that guests share by turns keeps its handle in its entry; any other has none.
fn polled_read(
    alloc: Global,
    stream: &mut InStream,
    context: Option<u32>,
    at: Owner,
    handle: StdoutHandle,
    room: u64,
) -> Result<Deed, OutOfMemory>
    ensures deed { IfOk result (λ deed. deed ≡ (polled_read context at handle stream.old room).deed) }
    ensures left { OnOk result (stream.new ≡ (polled_read context at handle stream.old room).left) }
    ensures made { IfOk result (λ deed. IsMake deed → stream.new ≡ stream.old) }
    ensures err { OnErr result (stream.new ≡ stream.old) }
{
    match stream {
        InStream::Async(input) => polled_shared_read(alloc, input, context, at, handle, room),
        InStream::Closed | InStream::Pipe(_) | InStream::File(_) => {
            Ok(Deed::Tell(poll_read(alloc, stream, room)?))
        }
    }
}

fn polled_shared_read(
    alloc: Global,
    input: &mut AsyncInput,
    context: Option<u32>,
    at: Owner,
    handle: StdoutHandle,
    room: u64,
) -> Result<Deed, OutOfMemory>
    ensures deed { IfOk result (λ deed. deed ≡ (polled_read context at handle (in_stream.Async input.old) room).deed) }
    ensures left { IfOk result (λ deed. in_stream.Async input.new ≡ (polled_read context at handle (in_stream.Async input.old) room).left) }
    ensures made { IfOk result (λ deed. IsMake deed → ⊥) }
    ensures err { OnErr result (input.new ≡ input.old) }
{
    let mut polled = handle.handle;
    let answer = input.poll_read(alloc, at, &mut polled, room)?;
    let handle = StdoutHandle {
        handle: polled,
        flushing: handle.flushing,
    };
    Ok(Deed::Change {
        number: u64::from(at.number),
        entry: Entry::Stream {
            context,
            stream: Standard::Input,
            entry: StreamEntry::Polled(handle),
        },
        told: told_polled_bytes(answer),
    })
}

fn told_polled_bytes(answer: Polled<Bytes>) -> Told
    ensures { result ≡ poll_told Told.Bytes answer }
{
    match answer {
        Polled::Pending => Told::Pending,
        Polled::Ready(bytes) => Told::Bytes(Piece::shared(bytes)),
        Polled::Failed(kind) => Told::Failed(kind),
    }
}

fn poll_read(alloc: Global, stream: &mut InStream, room: u64) -> Result<Told, OutOfMemory>
    ensures told { IfOk result (λ told. told ≡ poll_told Told.Bytes (input_poll_read stream.old room)) }
    ensures left { OnOk result (stream.new ≡ after_input_poll_read stream.old room) }
    ensures err { OnErr result (stream.new ≡ stream.old) }
{
    let answer = match stream {
        InStream::Pipe(pipe) => pipe.poll_read(room),
        InStream::File(file) => file.poll_read(alloc, room),
        InStream::Async(_) => Ok(Polled::Pending),
        InStream::Closed => Ok(Polled::Ready(Bytes::new())),
    };
    match answer {
        Ok(answer) => Ok(told_polled_bytes(answer)),
        Err(OutOfMemory) => Err(OutOfMemory),
    }
}

fn is_ready(stream: &mut InStream) -> bool
    ensures answer { result ≡ input_is_ready stream.old }
    ensures same { stream.new ≡ stream.old }
{
    match stream {
        InStream::Async(input) => input.ready(),
        InStream::Closed | InStream::Pipe(_) | InStream::File(_) => true,
    }
}

// A block of a pollable under its own number.
fn block(stream: &mut InStream, at: Owner) -> Result<bool, OutOfMemory>
    ensures answer { IfOk result (λ over. over ≡ input_block stream.old at) }
    ensures left { OnOk result (stream.new ≡ after_input_block stream.old at) }
    ensures err { OnErr result (stream.new ≡ stream.old) }
{
    match stream {
        InStream::Async(input) => input.block(at),
        InStream::Closed | InStream::Pipe(_) | InStream::File(_) => Ok(true),
    }
}

/// Who leaves has no turn on an input any more, and waits for none.
pub fn leave_input(stream: &mut InStream, who: Leaver)
    ensures { stream.new ≡ input_without who stream.old }
{
    match stream {
        InStream::Async(input) => input.leave(who),
        InStream::Closed | InStream::Pipe(_) | InStream::File(_) => {}
    }
}

/// A turn of the task of an input; one that has none has nothing to do.
pub fn read_ahead(stream: &mut InStream) -> Worked
    ensures told { result ≡ (input_turned stream.old).told }
    ensures left { stream.new ≡ (input_turned stream.old).left }
{
    match stream {
        InStream::Async(input) => input.turn(),
        InStream::Closed | InStream::Pipe(_) | InStream::File(_) => Worked::Idle,
    }
}
