use super::{gives, refuses, sink, skips};
use crate::{
    AsyncReadStream, AsyncWriteStream, InputStream, OutputStream, Pollable, ReaderTurn, WriterTurn,
};
use bytes::Bytes;
use std::alloc::{AllocError, Global};
use std::test::Fail;
use wasi_base::{IoKind, MemSink, MemSource, OutOfMemory, Plan, SinkPlan, StreamError, TrapText};

fn reader(
    alloc: Global,
    bytes: &[u8],
    plan: &[Plan],
) -> Result<AsyncReadStream<MemSource>, OutOfMemory> {
    let bytes = Vec::from_slice(alloc, bytes)?;
    let plan = Vec::from_slice(alloc, plan)?;
    AsyncReadStream::new(alloc, MemSource::new(bytes, plan))
}

fn zeros(alloc: Global, count: usize) -> Result<Bytes, AllocError> {
    Ok(Bytes::from_vec(vec![in alloc; 0u8; count]?)?)
}

#[test]
fn a_task_reads_one_item_ahead(rt: HostRuntime) -> Result<(), Fail> {
    let alloc = rt.alloc();
    let bytes = vec![in alloc; 0x7bu8; 131072]?;
    let item = vec![in alloc; 0x7bu8; 65536]?;
    let mut stream = reader(alloc, &bytes, &[])?;
    gives(&rt, alloc, &mut stream, 10, b"");
    assert_eq!(rt; stream.ready(), false);
    assert_eq!(rt; stream.turn(), ReaderTurn::Gave(65536));
    assert_eq!(rt; stream.turn(), ReaderTurn::Idle);
    assert_eq!(rt; stream.ready(), true);
    gives(&rt, alloc, &mut stream, 0, b"");
    assert_eq!(rt; stream.turn(), ReaderTurn::Gave(65536));
    gives(&rt, alloc, &mut stream, 65537, &item);
    skips(&rt, &mut stream, 65535, Ok(65535));
    assert_eq!(rt; stream.turn(), ReaderTurn::End);
    gives(&rt, alloc, &mut stream, 8, b"{");
    refuses(&rt, alloc, &mut stream, 0, StreamError::Closed);
    assert_eq!(rt; stream.turn(), ReaderTurn::Idle);
    skips(&rt, &mut stream, 0, Err(StreamError::Closed));
    assert_eq!(rt; stream.ready(), true);
    Ok(())
}

#[test]
fn an_item_is_read_in_parts(rt: HostRuntime) -> Result<(), Fail> {
    let alloc = rt.alloc();
    let plan = [Plan::Take(2), Plan::Take(3), Plan::Fail(IoKind::BrokenPipe)];
    let mut stream = reader(alloc, b"abcdefg", &plan)?;
    assert_eq!(rt; stream.turn(), ReaderTurn::Gave(2));
    gives(&rt, alloc, &mut stream, 1, b"a");
    assert_eq!(rt; stream.turn(), ReaderTurn::Gave(3));
    gives(&rt, alloc, &mut stream, 9, b"b");
    skips(&rt, &mut stream, 2, Ok(2));
    assert_eq!(rt; stream.turn(), ReaderTurn::Fault(IoKind::BrokenPipe));
    assert_eq!(rt; stream.turn(), ReaderTurn::Idle);
    gives(&rt, alloc, &mut stream, 9, b"e");
    let fault = StreamError::LastOperationFailed(IoKind::BrokenPipe);
    refuses(&rt, alloc, &mut stream, 0, fault);
    refuses(&rt, alloc, &mut stream, 0, StreamError::Closed);
    Ok(())
}

#[test]
fn a_cancelled_reader_is_closed(rt: HostRuntime) -> Result<(), Fail> {
    let alloc = rt.alloc();
    let mut stream = reader(alloc, b"abc", &[])?;
    assert_eq!(rt; stream.turn(), ReaderTurn::Gave(3));
    stream.cancel();
    assert_eq!(rt; stream.ready(), true);
    refuses(&rt, alloc, &mut stream, 2, StreamError::Closed);
    Ok(())
}

#[test]
fn a_turn_hands_on_what_is_buffered(rt: HostRuntime) -> Result<(), Fail> {
    let alloc = rt.alloc();
    let target = MemSink::new(alloc, 4096, Vec::new(alloc))?;
    let mut stream = AsyncWriteStream::new(alloc, 1024, target)?;
    assert_eq!(rt; stream.check_write(), Ok(1024));
    assert_eq!(rt; stream.write(zeros(alloc, 1024)?), Ok(()));
    let exceeded = StreamError::Trap(TrapText::WriteExceededBudget);
    assert_eq!(rt; stream.write(zeros(alloc, 1024)?), Err(exceeded));
    assert_eq!(rt; stream.check_write(), Ok(0));
    assert_eq!(rt; stream.ready(), false);
    assert_eq!(rt; stream.flush(), Ok(()));
    assert_eq!(rt; stream.turn(), WriterTurn::Took(1024));
    assert_eq!(rt; stream.check_write(), Ok(0));
    let pending = StreamError::Trap(TrapText::WriteWhileFlushPending);
    assert_eq!(rt; stream.write(Bytes::from_static(b"")), Err(pending));
    assert_eq!(rt; stream.turn(), WriterTurn::Flushed);
    assert_eq!(rt; stream.check_write(), Ok(1024));
    assert_eq!(rt; stream.turn(), WriterTurn::Idle);
    assert_eq!(rt; stream.sink().taken(), zeros(alloc, 1024)?.as_slice());
    Ok(())
}

#[test]
fn short_takes_keep_the_order(rt: HostRuntime) -> Result<(), Fail> {
    let alloc = rt.alloc();
    let plan = [SinkPlan::Take(1), SinkPlan::Take(2), SinkPlan::Take(1)];
    let mut stream = AsyncWriteStream::new(alloc, 4, sink(alloc, &plan)?)?;
    assert_eq!(rt; stream.write(Bytes::from_static(b"abcd")), Ok(()));
    assert_eq!(rt; stream.turn(), WriterTurn::Took(1));
    assert_eq!(rt; stream.write(Bytes::from_static(b"e")), Ok(()));
    assert_eq!(rt; stream.turn(), WriterTurn::Took(2));
    assert_eq!(rt; stream.write(Bytes::from_static(b"fg")), Ok(()));
    assert_eq!(rt; stream.check_write(), Ok(0));
    assert_eq!(rt; stream.turn(), WriterTurn::Took(1));
    assert_eq!(rt; stream.write(Bytes::from_static(b"h")), Ok(()));
    assert_eq!(rt; stream.turn(), WriterTurn::Took(4));
    assert_eq!(rt; stream.sink().taken(), b"abcdefgh".as_slice());
    Ok(())
}

#[test]
fn a_fault_is_told_once(rt: HostRuntime) -> Result<(), Fail> {
    let alloc = rt.alloc();
    let plan = [
        SinkPlan::Fail(IoKind::Other),
        SinkPlan::FlushFail(IoKind::NotFound),
    ];
    let mut stream = AsyncWriteStream::new(alloc, 8, sink(alloc, &plan)?)?;
    assert_eq!(rt; stream.write(Bytes::from_static(b"ab")), Ok(()));
    assert_eq!(rt; stream.turn(), WriterTurn::Fault(IoKind::Other));
    assert_eq!(rt; stream.ready(), true);
    assert_eq!(rt; stream.turn(), WriterTurn::Idle);
    let told = StreamError::LastOperationFailed(IoKind::Other);
    assert_eq!(rt; stream.check_write(), Err(told));
    assert_eq!(rt; stream.check_write(), Err(StreamError::Closed));
    assert_eq!(rt;
        stream.write(Bytes::from_static(b"c")),
        Err(StreamError::Closed)
    );
    assert_eq!(rt; stream.flush(), Err(StreamError::Closed));
    assert_eq!(rt; stream.turn(), WriterTurn::Idle);
    assert_eq!(rt; stream.sink().taken(), b"".as_slice());
    Ok(())
}

#[test]
fn a_flush_may_fail(rt: HostRuntime) -> Result<(), Fail> {
    let alloc = rt.alloc();
    let plan = [SinkPlan::FlushFail(IoKind::NotFound)];
    let mut stream = AsyncWriteStream::new(alloc, 1, sink(alloc, &plan)?)?;
    assert_eq!(rt; stream.write(Bytes::from_static(b"a")), Ok(()));
    assert_eq!(rt; stream.flush(), Ok(()));
    assert_eq!(rt; stream.turn(), WriterTurn::Took(1));
    assert_eq!(rt; stream.turn(), WriterTurn::Fault(IoKind::NotFound));
    let told = StreamError::LastOperationFailed(IoKind::NotFound);
    assert_eq!(rt; stream.write(Bytes::from_static(b"")), Err(told));
    assert_eq!(rt; stream.flush(), Err(StreamError::Closed));
    assert_eq!(rt; stream.sink().taken(), b"a".as_slice());
    Ok(())
}

#[test]
fn the_greatest_budget_is_used_whole(rt: HostRuntime) -> Result<(), Fail> {
    let alloc = rt.alloc();
    let target = MemSink::new(alloc, 1048576, Vec::new(alloc))?;
    let mut stream = AsyncWriteStream::new(alloc, 1048576, target)?;
    assert_eq!(rt; stream.write(zeros(alloc, 1048576)?), Ok(()));
    assert_eq!(rt; stream.turn(), WriterTurn::Took(1048576));
    Ok(())
}

#[test]
fn the_least_and_the_greatest_reads_find_memory(rt: HostRuntime) -> Result<(), Fail> {
    let alloc = rt.alloc();
    let bytes = vec![in alloc; 0x7bu8; 65536]?;
    let mut stream = reader(alloc, &bytes, &[])?;
    assert_eq!(rt; stream.turn(), ReaderTurn::Gave(65536));
    gives(&rt, alloc, &mut stream, 0, b"");
    gives(&rt, alloc, &mut stream, 18446744073709551615, &bytes);
    Ok(())
}

#[test]
fn the_least_budget_is_used_whole(rt: HostRuntime) -> Result<(), Fail> {
    let alloc = rt.alloc();
    let mut stream = AsyncWriteStream::new(alloc, 1, sink(alloc, &[])?)?;
    assert_eq!(rt; stream.check_write(), Ok(1));
    assert_eq!(rt; stream.write(Bytes::from_static(b"a")), Ok(()));
    assert_eq!(rt; stream.check_write(), Ok(0));
    Ok(())
}
