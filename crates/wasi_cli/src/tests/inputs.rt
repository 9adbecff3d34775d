use super::{FIRST, SECOND, THIRD};
use crate::{Owner, StdioHandle, Turns, shared_cancel, shared_read, shared_skip};
use bytes::Bytes;
use std::alloc::Global;
use std::process::Abort;
use std::test::Fail;
use wasi_base::{IoKind, MemSource, OutOfMemory, Plan, Polled, StreamError, TrapText};
use wasi_streams::{AsyncReadStream, ReaderTurn};

/// An input that entries share.
#[derive(Drop)]
struct Shared {
    turns: Turns,
    stream: AsyncReadStream<MemSource>,
}

fn shared_input(alloc: Global, bytes: &[u8], plan: &[Plan]) -> Result<Shared, OutOfMemory> {
    let bytes = Vec::from_slice(alloc, bytes)?;
    let plan = Vec::from_slice(alloc, plan)?;
    let stream = AsyncReadStream::new(alloc, MemSource::new(bytes, plan))?;
    Ok(Shared {
        turns: Turns::new(alloc),
        stream,
    })
}

// a poll of two bytes
fn poll(
    alloc: Global,
    input: &mut Shared,
    who: Owner,
    handle: &mut StdioHandle,
) -> Result<Polled<Bytes>, OutOfMemory> {
    handle.poll_read(alloc, who, &mut input.turns, &mut input.stream, 2)
}

fn gives(
    rt: &impl Abort,
    alloc: Global,
    input: &mut Shared,
    who: Owner,
    handle: &mut StdioHandle,
    want: &[u8],
) {
    match poll(alloc, input, who, handle) {
        Ok(Polled::Ready(bytes)) => assert!(rt; bytes.as_slice() == want),
        Ok(Polled::Pending | Polled::Failed(_)) | Err(_) => assert!(rt; false),
    }
}

fn waits(
    rt: &impl Abort,
    alloc: Global,
    input: &mut Shared,
    who: Owner,
    handle: &mut StdioHandle,
    after: StdioHandle,
) {
    match poll(alloc, input, who, handle) {
        Ok(Polled::Pending) => assert_eq!(rt; *handle, after),
        Ok(Polled::Ready(_) | Polled::Failed(_)) | Err(_) => assert!(rt; false),
    }
}

fn fails(
    rt: &impl Abort,
    alloc: Global,
    input: &mut Shared,
    who: Owner,
    handle: &mut StdioHandle,
    want: IoKind,
) {
    match poll(alloc, input, who, handle) {
        Ok(Polled::Failed(kind)) => assert_eq!(rt; kind, want),
        Ok(Polled::Pending | Polled::Ready(_)) | Err(_) => assert!(rt; false),
    }
}

fn turns_to(rt: &impl Abort, input: &mut Shared, want: ReaderTurn) {
    assert_eq!(rt; input.stream.turn(), want);
}

fn held_by(rt: &impl Abort, input: &Shared, want: Option<Owner>) {
    assert_eq!(rt; input.turns.holder(), want);
}

fn frees(input: &mut Shared, who: Owner) {
    input.turns.free(who);
}

// plain calls trap
fn refuses(rt: &impl Abort, alloc: Global, input: &mut Shared) {
    match shared_read(alloc, &input.turns, &mut input.stream, 1) {
        Err(error) => assert_eq!(rt; error, StreamError::Trap(TrapText::ConcurrentReads)),
        Ok(_) => assert!(rt; false),
    }
    let skips = StreamError::Trap(TrapText::ConcurrentSkips);
    assert_eq!(rt; shared_skip(&input.turns, &mut input.stream, 1), Err(skips));
}

// plain calls are the stream's own
fn reads(rt: &impl Abort, alloc: Global, input: &mut Shared, want: &[u8]) {
    shared_cancel(&input.turns, &mut input.stream);
    assert_eq!(rt; shared_skip(&input.turns, &mut input.stream, 1), Ok(1));
    match shared_read(alloc, &input.turns, &mut input.stream, 9) {
        Ok(bytes) => assert!(rt; bytes.as_slice() == want),
        Err(_) => assert!(rt; false),
    }
}

#[test]
fn a_plain_read_traps_while_a_poll_has_the_turn(rt: HostRuntime) -> Result<(), Fail> {
    let alloc = rt.alloc();
    let mut input = shared_input(alloc, b"abcd", &[Plan::Take(2), Plan::Take(2)])?;
    let mut handle = StdioHandle::Ready;
    waits(
        &rt,
        alloc,
        &mut input,
        FIRST,
        &mut handle,
        StdioHandle::Locked,
    );
    refuses(&rt, alloc, &mut input);
    turns_to(&rt, &mut input, ReaderTurn::Gave(2));
    refuses(&rt, alloc, &mut input);
    gives(&rt, alloc, &mut input, FIRST, &mut handle, b"ab");
    held_by(&rt, &input, None);
    turns_to(&rt, &mut input, ReaderTurn::Gave(2));
    reads(&rt, alloc, &mut input, b"d");
    Ok(())
}

#[test]
fn three_readers_wait_in_order(rt: HostRuntime) -> Result<(), Fail> {
    let alloc = rt.alloc();
    let mut input = shared_input(alloc, b"abcdef", &[])?;
    let mut first = StdioHandle::Ready;
    let mut second = StdioHandle::Ready;
    let mut third = StdioHandle::Ready;
    waits(
        &rt,
        alloc,
        &mut input,
        FIRST,
        &mut first,
        StdioHandle::Locked,
    );
    waits(
        &rt,
        alloc,
        &mut input,
        SECOND,
        &mut second,
        StdioHandle::Locking,
    );
    waits(
        &rt,
        alloc,
        &mut input,
        THIRD,
        &mut third,
        StdioHandle::Locking,
    );
    turns_to(&rt, &mut input, ReaderTurn::Gave(6));
    // bytes are there, but not for those that wait
    waits(
        &rt,
        alloc,
        &mut input,
        SECOND,
        &mut second,
        StdioHandle::Locking,
    );
    gives(&rt, alloc, &mut input, FIRST, &mut first, b"ab");
    waits(
        &rt,
        alloc,
        &mut input,
        FIRST,
        &mut first,
        StdioHandle::Locking,
    );
    waits(
        &rt,
        alloc,
        &mut input,
        THIRD,
        &mut third,
        StdioHandle::Locking,
    );
    gives(&rt, alloc, &mut input, SECOND, &mut second, b"cd");
    // the entry of the next one goes before it uses its turn
    held_by(&rt, &input, Some(THIRD));
    frees(&mut input, THIRD);
    gives(&rt, alloc, &mut input, FIRST, &mut first, b"ef");
    held_by(&rt, &input, None);
    Ok(())
}

#[test]
fn the_end_and_a_failure_close_a_handle(rt: HostRuntime) -> Result<(), Fail> {
    let alloc = rt.alloc();
    let mut input = shared_input(alloc, b"ab", &[Plan::Fail(IoKind::BrokenPipe)])?;
    let mut first = StdioHandle::Ready;
    let mut second = StdioHandle::Ready;
    waits(
        &rt,
        alloc,
        &mut input,
        FIRST,
        &mut first,
        StdioHandle::Locked,
    );
    waits(
        &rt,
        alloc,
        &mut input,
        SECOND,
        &mut second,
        StdioHandle::Locking,
    );
    turns_to(&rt, &mut input, ReaderTurn::Fault(IoKind::BrokenPipe));
    fails(
        &rt,
        alloc,
        &mut input,
        FIRST,
        &mut first,
        IoKind::BrokenPipe,
    );
    held_by(&rt, &input, Some(SECOND));
    // a closed handle asks for no turn
    gives(&rt, alloc, &mut input, FIRST, &mut first, b"");
    gives(&rt, alloc, &mut input, SECOND, &mut second, b"");
    held_by(&rt, &input, None);
    assert_eq!(rt; first, StdioHandle::Closed);
    assert_eq!(rt; second, StdioHandle::Closed);
    Ok(())
}
