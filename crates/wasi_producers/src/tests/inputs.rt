use super::GUEST;
use crate::{CliErrorCode, InputStreamProducer, Produced, StreamResult};
use bytes::Bytes;
use std::alloc::Global;
use std::process::Abort;
use std::test::Fail;
use wasi_base::{IoKind, MemSource, OutOfMemory, Plan, Polled};
use wasi_cli::{StdioHandle, Turns};
use wasi_streams::{AsyncReadStream, InputFile, ReaderTurn};

fn source(alloc: Global, bytes: &[u8], plan: &[Plan]) -> Result<MemSource, OutOfMemory> {
    let bytes = Vec::from_slice(alloc, bytes)?;
    Ok(MemSource::new(bytes, Vec::from_slice(alloc, plan)?))
}

fn is(rt: &impl Abort, produced: &Produced, want: StreamResult, bytes: &[u8]) {
    assert_eq!(rt; produced.result, want);
    assert!(rt; produced.bytes.as_slice() == bytes);
}

// one poll over a file
fn poll(
    alloc: Global,
    producer: &mut InputStreamProducer,
    file: &mut InputFile<MemSource>,
    room: Option<u64>,
) -> Result<Produced, OutOfMemory> {
    if producer.is_ended() {
        return Ok(producer.poll_no_room());
    }
    match producer.room_for(room) {
        0 => Ok(producer.poll_no_room()),
        room => match file.poll_read(alloc, room) {
            Ok(got) => Ok(producer.poll_produce(got, false)),
            Err(error) => Err(error),
        },
    }
}

#[test]
fn a_file_is_produced_to_its_end(rt: HostRuntime) -> Result<(), Fail> {
    let alloc = rt.alloc();
    let mut file = InputFile::new(source(alloc, b"abcdef", &[Plan::Take(1)])?);
    let mut producer = InputStreamProducer::new();
    let answer = poll(alloc, &mut producer, &mut file, Some(0))?;
    is(&rt, &answer, StreamResult::Completed, b"");
    let answer = poll(alloc, &mut producer, &mut file, Some(4))?;
    is(&rt, &answer, StreamResult::Completed, b"a");
    let answer = poll(alloc, &mut producer, &mut file, Some(2))?;
    is(&rt, &answer, StreamResult::Completed, b"bc");
    let answer = poll(alloc, &mut producer, &mut file, Some(65536))?;
    is(&rt, &answer, StreamResult::Completed, b"def");
    assert!(&rt; !producer.is_ended());
    let answer = poll(alloc, &mut producer, &mut file, Some(u64::MAX))?;
    is(&rt, &answer, StreamResult::Dropped, b"");
    assert!(&rt; producer.is_ended());
    assert_eq!(&rt; producer.result(), None);
    // also for room 0
    let answer = poll(alloc, &mut producer, &mut file, Some(0))?;
    is(&rt, &answer, StreamResult::Dropped, b"");
    Ok(())
}

#[test]
fn an_unknown_room_is_8192_bytes(rt: HostRuntime) -> Result<(), Fail> {
    let alloc = rt.alloc();
    let producer = InputStreamProducer::new();
    assert_eq!(&rt; producer.room_for(None), 8192);
    assert_eq!(&rt; producer.room_for(Some(0)), 0);
    assert_eq!(&rt; producer.room_for(Some(65536)), 65536);
    assert_eq!(&rt; producer.room_for(Some(u64::MAX)), u64::MAX);
    let bytes = vec![in alloc; 7u8; 10000]?;
    let mut file = InputFile::new(MemSource::new(bytes, Vec::new(alloc)));
    let mut producer = InputStreamProducer::new();
    let answer = poll(alloc, &mut producer, &mut file, None)?;
    assert_eq!(&rt; answer.bytes.len(), 8192);
    let answer = poll(alloc, &mut producer, &mut file, None)?;
    assert_eq!(&rt; answer.bytes.len(), 1808);
    Ok(())
}

#[test]
fn a_broken_pipe_is_told_once(rt: HostRuntime) -> Result<(), Fail> {
    let alloc = rt.alloc();
    let fails = source(alloc, b"ab", &[Plan::Fail(IoKind::BrokenPipe)])?;
    let mut stream = AsyncReadStream::new(alloc, fails)?;
    let mut turns = Turns::new(alloc);
    let mut handle = StdioHandle::Ready;
    let mut producer = InputStreamProducer::new();
    let got = handle.poll_read(alloc, GUEST, &mut turns, &mut stream, 4)?;
    let answer = producer.poll_produce(got, false);
    is(&rt, &answer, StreamResult::Pending, b"");
    let got = handle.poll_read(alloc, GUEST, &mut turns, &mut stream, 4)?;
    let answer = producer.poll_produce(got, true);
    is(&rt, &answer, StreamResult::Cancelled, b"");
    assert!(&rt; !producer.is_ended());
    assert_eq!(&rt; stream.turn(), ReaderTurn::Fault(IoKind::BrokenPipe));
    let got = handle.poll_read(alloc, GUEST, &mut turns, &mut stream, 4)?;
    let answer = producer.poll_produce(got, false);
    is(&rt, &answer, StreamResult::Dropped, b"");
    assert_eq!(&rt; producer.result(), Some(CliErrorCode::Pipe));
    // the first result stays, and nothing comes after it
    let answer = producer.poll_produce(Polled::Failed(IoKind::Other), false);
    is(&rt, &answer, StreamResult::Dropped, b"");
    let answer = producer.poll_produce(Polled::Ready(Bytes::from_static(b"x")), false);
    is(&rt, &answer, StreamResult::Dropped, b"");
    producer.close();
    assert_eq!(&rt; producer.result(), Some(CliErrorCode::Pipe));
    Ok(())
}

#[test]
fn a_producer_that_is_closed_sent_ok(rt: HostRuntime) -> Result<(), Fail> {
    let mut producer = InputStreamProducer::new();
    producer.close();
    producer.close();
    assert_eq!(&rt; producer, InputStreamProducer::Ended(Ok(())));
    assert_eq!(&rt; producer.result(), None);
    let answer = producer.poll_produce(Polled::Failed(IoKind::Other), false);
    is(&rt, &answer, StreamResult::Dropped, b"");
    assert_eq!(&rt; producer, InputStreamProducer::Ended(Ok(())));
    Ok(())
}
