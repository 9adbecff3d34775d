ghost use Rattle.std.specs.Prelude.{◌<◌};

use super::{FIRST, SECOND, THIRD};
use crate::{
    Owner, StdioHandle, StdoutHandle, Turns, shared_check_write, shared_flush, shared_write,
};
use bytes::Bytes;
use std::alloc::Global;
use std::process::Abort;
use std::test::Fail;
use wasi_base::{IoKind, MemSink, OutOfMemory, Polled, SinkPlan, StreamError, TrapText};
use wasi_streams::{AsyncWriteStream, WriterTurn};

/// An output that entries share.
#[derive(Drop)]
struct Shared {
    turns: Turns,
    stream: AsyncWriteStream<MemSink>,
}

fn shared_output(alloc: Global, budget: u64, plan: &[SinkPlan]) -> Result<Shared, OutOfMemory>
    requires { 0 < budget }
{
    let sink = MemSink::new(alloc, 64, Vec::from_slice(alloc, plan)?)?;
    let stream = AsyncWriteStream::new(alloc, budget, sink)?;
    Ok(Shared {
        turns: Turns::new(alloc),
        stream,
    })
}

fn state(handle: StdioHandle, flushing: bool) -> StdoutHandle {
    StdoutHandle { handle, flushing }
}

fn fresh() -> StdoutHandle {
    state(StdioHandle::Ready, false)
}

fn writes(
    rt: &impl Abort,
    alloc: Global,
    output: &mut Shared,
    who: Owner,
    handle: &mut StdoutHandle,
    piece: &[u8],
    want: Polled<u64>,
) {
    let answer = handle.poll_write(alloc, who, &mut output.turns, &mut output.stream, piece);
    assert_eq!(rt; answer, Ok(want));
}

fn flushes(
    rt: &impl Abort,
    output: &mut Shared,
    who: Owner,
    handle: &mut StdoutHandle,
    want: Polled<()>,
    after: StdoutHandle,
) {
    let answer = handle.poll_flush(who, &mut output.turns, &mut output.stream);
    assert_eq!(rt; answer, Ok(want));
    assert_eq!(rt; *handle, after);
}

fn turns_to(rt: &impl Abort, output: &mut Shared, want: WriterTurn) {
    assert_eq!(rt; output.stream.turn(), want);
}

fn held_by(rt: &impl Abort, output: &Shared, want: Option<Owner>) {
    assert_eq!(rt; output.turns.holder(), want);
}

fn took(rt: &impl Abort, output: &Shared, want: &[u8]) {
    assert_eq!(rt; output.stream.sink().taken(), want);
}

fn frees(output: &mut Shared, who: Owner) {
    output.turns.free(who);
}

// plain calls trap
fn refuses(rt: &impl Abort, output: &mut Shared) {
    let checks = StreamError::Trap(TrapText::ConcurrentCheckWrites);
    assert_eq!(rt;
        shared_check_write(&output.turns, &mut output.stream),
        Err(checks)
    );
    let writes = StreamError::Trap(TrapText::ConcurrentWrites);
    let bytes = Bytes::from_static(b"x");
    assert_eq!(rt;
        shared_write(&output.turns, &mut output.stream, bytes),
        Err(writes)
    );
    let flushes = StreamError::Trap(TrapText::ConcurrentFlushes);
    assert_eq!(rt;
        shared_flush(&output.turns, &mut output.stream),
        Err(flushes)
    );
}

// plain calls are the stream's own
fn takes(rt: &impl Abort, output: &mut Shared, room: u64) {
    assert_eq!(rt;
        shared_check_write(&output.turns, &mut output.stream),
        Ok(room)
    );
    let bytes = Bytes::from_static(b"g");
    assert_eq!(rt;
        shared_write(&output.turns, &mut output.stream, bytes),
        Ok(())
    );
    assert_eq!(rt; shared_flush(&output.turns, &mut output.stream), Ok(()));
}

#[test]
fn a_poll_writes_what_is_permitted(rt: HostRuntime) -> Result<(), Fail> {
    let alloc = rt.alloc();
    let mut output = shared_output(alloc, 4, &[])?;
    let mut first = fresh();
    writes(
        &rt,
        alloc,
        &mut output,
        FIRST,
        &mut first,
        b"abcdef",
        Polled::Ready(4),
    );
    writes(
        &rt,
        alloc,
        &mut output,
        FIRST,
        &mut first,
        b"ef",
        Polled::Pending,
    );
    refuses(&rt, &mut output);
    turns_to(&rt, &mut output, WriterTurn::Took(4));
    writes(
        &rt,
        alloc,
        &mut output,
        FIRST,
        &mut first,
        b"ef",
        Polled::Ready(2),
    );
    let second_poll = state(StdioHandle::Locked, true);
    flushes(
        &rt,
        &mut output,
        FIRST,
        &mut first,
        Polled::Pending,
        second_poll,
    );
    turns_to(&rt, &mut output, WriterTurn::Took(2));
    turns_to(&rt, &mut output, WriterTurn::Flushed);
    flushes(
        &rt,
        &mut output,
        FIRST,
        &mut first,
        Polled::Ready(()),
        fresh(),
    );
    assert_eq!(rt; first.poll_shutdown(), Polled::Ready(()));
    held_by(&rt, &output, None);
    takes(&rt, &mut output, 4);
    turns_to(&rt, &mut output, WriterTurn::Took(1));
    took(&rt, &output, b"abcdefg");
    Ok(())
}

#[test]
fn a_flush_waits_again_behind_the_others(rt: HostRuntime) -> Result<(), Fail> {
    let alloc = rt.alloc();
    let mut output = shared_output(alloc, 2, &[])?;
    let mut first = fresh();
    let mut second = fresh();
    let mut third = fresh();
    writes(
        &rt,
        alloc,
        &mut output,
        FIRST,
        &mut first,
        b"ab",
        Polled::Ready(2),
    );
    let first_poll = state(StdioHandle::Locked, false);
    flushes(
        &rt,
        &mut output,
        FIRST,
        &mut first,
        Polled::Pending,
        first_poll,
    );
    writes(
        &rt,
        alloc,
        &mut output,
        SECOND,
        &mut second,
        b"cd",
        Polled::Pending,
    );
    writes(
        &rt,
        alloc,
        &mut output,
        THIRD,
        &mut third,
        b"ef",
        Polled::Pending,
    );
    turns_to(&rt, &mut output, WriterTurn::Took(2));
    let second_poll = state(StdioHandle::Locking, true);
    flushes(
        &rt,
        &mut output,
        FIRST,
        &mut first,
        Polled::Pending,
        second_poll,
    );
    held_by(&rt, &output, Some(SECOND));
    turns_to(&rt, &mut output, WriterTurn::Flushed);
    flushes(
        &rt,
        &mut output,
        FIRST,
        &mut first,
        Polled::Pending,
        second_poll,
    );
    writes(
        &rt,
        alloc,
        &mut output,
        SECOND,
        &mut second,
        b"cd",
        Polled::Ready(2),
    );
    writes(
        &rt,
        alloc,
        &mut output,
        THIRD,
        &mut third,
        b"ef",
        Polled::Pending,
    );
    turns_to(&rt, &mut output, WriterTurn::Took(2));
    writes(
        &rt,
        alloc,
        &mut output,
        THIRD,
        &mut third,
        b"ef",
        Polled::Ready(2),
    );
    turns_to(&rt, &mut output, WriterTurn::Took(2));
    flushes(
        &rt,
        &mut output,
        FIRST,
        &mut first,
        Polled::Ready(()),
        fresh(),
    );
    took(&rt, &output, b"abcdef");
    Ok(())
}

#[test]
fn a_flush_is_left_in_its_second_poll(rt: HostRuntime) -> Result<(), Fail> {
    let alloc = rt.alloc();
    let mut output = shared_output(alloc, 4, &[])?;
    let mut first = fresh();
    let mut second = fresh();
    writes(
        &rt,
        alloc,
        &mut output,
        FIRST,
        &mut first,
        b"ab",
        Polled::Ready(2),
    );
    let second_poll = state(StdioHandle::Locked, true);
    flushes(
        &rt,
        &mut output,
        FIRST,
        &mut first,
        Polled::Pending,
        second_poll,
    );
    // a write waits while the flush is pending, and leaves the handle its flush and its turn
    writes(
        &rt,
        alloc,
        &mut output,
        FIRST,
        &mut first,
        b"c",
        Polled::Pending,
    );
    flushes(
        &rt,
        &mut output,
        FIRST,
        &mut first,
        Polled::Pending,
        second_poll,
    );
    writes(
        &rt,
        alloc,
        &mut output,
        SECOND,
        &mut second,
        b"d",
        Polled::Pending,
    );
    // its entry goes, and the stream ends the flush for the next one
    frees(&mut output, FIRST);
    held_by(&rt, &output, Some(SECOND));
    writes(
        &rt,
        alloc,
        &mut output,
        SECOND,
        &mut second,
        b"d",
        Polled::Pending,
    );
    turns_to(&rt, &mut output, WriterTurn::Took(2));
    turns_to(&rt, &mut output, WriterTurn::Flushed);
    writes(
        &rt,
        alloc,
        &mut output,
        SECOND,
        &mut second,
        b"d",
        Polled::Ready(1),
    );
    turns_to(&rt, &mut output, WriterTurn::Took(1));
    took(&rt, &output, b"abd");
    Ok(())
}

#[test]
fn a_fault_of_a_flush_closes_the_handle(rt: HostRuntime) -> Result<(), Fail> {
    let alloc = rt.alloc();
    let mut output = shared_output(alloc, 4, &[SinkPlan::Fail(IoKind::Other)])?;
    let mut first = fresh();
    let mut second = fresh();
    let closed = state(StdioHandle::Closed, false);
    writes(
        &rt,
        alloc,
        &mut output,
        FIRST,
        &mut first,
        b"ab",
        Polled::Ready(2),
    );
    let second_poll = state(StdioHandle::Locked, true);
    flushes(
        &rt,
        &mut output,
        FIRST,
        &mut first,
        Polled::Pending,
        second_poll,
    );
    turns_to(&rt, &mut output, WriterTurn::Fault(IoKind::Other));
    flushes(
        &rt,
        &mut output,
        FIRST,
        &mut first,
        Polled::Failed(IoKind::Other),
        closed,
    );
    held_by(&rt, &output, None);
    writes(
        &rt,
        alloc,
        &mut output,
        FIRST,
        &mut first,
        b"c",
        Polled::Ready(0),
    );
    flushes(
        &rt,
        &mut output,
        FIRST,
        &mut first,
        Polled::Ready(()),
        closed,
    );
    writes(
        &rt,
        alloc,
        &mut output,
        SECOND,
        &mut second,
        b"",
        Polled::Ready(0),
    );
    assert_eq!(rt; second, fresh());
    // the fault was told, so the others find the end
    writes(
        &rt,
        alloc,
        &mut output,
        SECOND,
        &mut second,
        b"c",
        Polled::Ready(0),
    );
    assert_eq!(rt; second, closed);
    Ok(())
}
