use super::GUEST;
use crate::{CliErrorCode, Consumed, OutputStreamConsumer, StreamResult, Want, Wrote};
use std::alloc::Global;
use std::process::Abort;
use std::test::Fail;
use wasi_base::{IoKind, MemSink, OutOfMemory, Polled, SinkPlan};
use wasi_cli::{StdioHandle, StdoutHandle, Turns};
use wasi_streams::{AsyncWriteStream, MemoryOutputPipe, StdioOutputStream, WriterTurn};

fn sink(alloc: Global, room: u64, plan: &[SinkPlan]) -> Result<MemSink, OutOfMemory> {
    MemSink::new(alloc, room, Vec::from_slice(alloc, plan)?)
}

fn consumed(answer: StreamResult, taken: u64) -> Consumed {
    Consumed {
        result: answer,
        taken,
    }
}

/// A buffered output with the handle of one guest.
#[derive(Drop)]
struct Buffered {
    turns: Turns,
    stream: AsyncWriteStream<MemSink>,
    handle: StdoutHandle,
}

fn buffered_output(alloc: Global, sink: MemSink) -> Result<Buffered, OutOfMemory> {
    Ok(Buffered {
        turns: Turns::new(alloc),
        stream: AsyncWriteStream::new(alloc, 8, sink)?,
        handle: StdoutHandle {
            handle: StdioHandle::Ready,
            flushing: false,
        },
    })
}

// the flush of one poll
fn flush(
    consumer: &mut OutputStreamConsumer,
    output: &mut Buffered,
    taken: u64,
    finish: bool,
) -> Result<Consumed, OutOfMemory> {
    let handle = &mut output.handle;
    match handle.poll_flush(GUEST, &mut output.turns, &mut output.stream) {
        Ok(got) => Ok(consumer.flushed(got, taken, finish)),
        Err(error) => Err(error),
    }
}

// one poll over a buffered output
fn poll(
    alloc: Global,
    consumer: &mut OutputStreamConsumer,
    output: &mut Buffered,
    piece: &[u8],
    finish: bool,
) -> Result<Consumed, OutOfMemory> {
    match consumer.wants(piece.len() as u64) {
        Want::Flush => return flush(consumer, output, 0, finish),
        Want::Nothing => return Ok(consumer.poll_no_bytes()),
        Want::Write => {}
    }
    let handle = &mut output.handle;
    let got = match handle.poll_write(alloc, GUEST, &mut output.turns, &mut output.stream, piece) {
        Ok(got) => got,
        Err(error) => return Err(error),
    };
    match consumer.wrote(got, finish) {
        Wrote::Now(answer) => Ok(answer),
        Wrote::ThenFlush(taken) => flush(consumer, output, taken, finish),
    }
}

#[test]
fn a_pending_flush_takes_no_piece(rt: HostRuntime) -> Result<(), Fail> {
    let alloc = rt.alloc();
    let mut output = buffered_output(alloc, sink(alloc, 64, &[])?)?;
    let mut consumer = OutputStreamConsumer::new();
    let answer = poll(alloc, &mut consumer, &mut output, b"abc", false)?;
    assert_eq!(&rt; answer, consumed(StreamResult::Pending, 3));
    let answer = poll(alloc, &mut consumer, &mut output, b"abc", false)?;
    assert_eq!(&rt; answer, consumed(StreamResult::Pending, 0));
    assert_eq!(&rt; output.stream.turn(), WriterTurn::Took(3));
    assert_eq!(&rt; output.stream.turn(), WriterTurn::Flushed);
    let answer = poll(alloc, &mut consumer, &mut output, b"", false)?;
    assert_eq!(&rt; answer, consumed(StreamResult::Completed, 0));
    assert!(&rt; !consumer.is_ended());
    consumer.close();
    assert!(&rt; consumer.is_ended());
    assert_eq!(&rt; consumer.result(), None);
    let answer = poll(alloc, &mut consumer, &mut output, b"x", false)?;
    assert_eq!(&rt; answer, consumed(StreamResult::Dropped, 0));
    assert!(&rt; output.stream.sink().taken() == b"abc".as_slice());
    Ok(())
}

#[test]
fn a_flush_is_cancelled_under_finish(rt: HostRuntime) -> Result<(), Fail> {
    let alloc = rt.alloc();
    let mut output = buffered_output(alloc, sink(alloc, 64, &[])?)?;
    let mut consumer = OutputStreamConsumer::new();
    let answer = poll(alloc, &mut consumer, &mut output, b"abc", true)?;
    assert_eq!(&rt; answer, consumed(StreamResult::Cancelled, 3));
    assert_eq!(&rt; consumer, OutputStreamConsumer::new());
    let answer = poll(alloc, &mut consumer, &mut output, b"", true)?;
    assert_eq!(&rt; answer, consumed(StreamResult::Completed, 0));
    // the stream's flush is still under way, and permits no write
    let answer = poll(alloc, &mut consumer, &mut output, b"de", true)?;
    assert_eq!(&rt; answer, consumed(StreamResult::Cancelled, 0));
    Ok(())
}

#[test]
fn a_fault_of_a_write_is_told_with_the_flush(rt: HostRuntime) -> Result<(), Fail> {
    let alloc = rt.alloc();
    let fails = sink(
        alloc,
        64,
        &[SinkPlan::Take(1), SinkPlan::Fail(IoKind::Other)],
    )?;
    let mut output = buffered_output(alloc, fails)?;
    let mut consumer = OutputStreamConsumer::new();
    let answer = poll(alloc, &mut consumer, &mut output, b"abc", false)?;
    assert_eq!(&rt; answer, consumed(StreamResult::Pending, 3));
    assert_eq!(&rt; output.stream.turn(), WriterTurn::Took(1));
    assert_eq!(&rt; output.stream.turn(), WriterTurn::Fault(IoKind::Other));
    let answer = poll(alloc, &mut consumer, &mut output, b"de", false)?;
    assert_eq!(&rt; answer, consumed(StreamResult::Dropped, 0));
    assert_eq!(&rt; consumer.result(), Some(CliErrorCode::Io));
    consumer.close();
    assert_eq!(&rt; consumer.result(), Some(CliErrorCode::Io));
    Ok(())
}

// one poll over a standard output
fn poll_stdio(
    consumer: &mut OutputStreamConsumer,
    output: &mut StdioOutputStream<MemSink>,
    piece: &[u8],
) -> Consumed {
    match consumer.wants(piece.len() as u64) {
        Want::Flush => return consumer.flushed(output.poll_flush(), 0, false),
        Want::Nothing => return consumer.poll_no_bytes(),
        Want::Write => {}
    }
    match consumer.wrote(output.poll_write(piece), false) {
        Wrote::Now(answer) => answer,
        Wrote::ThenFlush(taken) => consumer.flushed(output.poll_flush(), taken, false),
    }
}

#[test]
fn a_standard_output_takes_a_part_and_then_fails(rt: HostRuntime) -> Result<(), Fail> {
    let alloc = rt.alloc();
    let plan = [
        SinkPlan::Take(2),
        SinkPlan::Take(9),
        SinkPlan::FlushFail(IoKind::BrokenPipe),
    ];
    let mut output = StdioOutputStream::new(sink(alloc, 64, &plan)?);
    let mut consumer = OutputStreamConsumer::new();
    assert_eq!(&rt;
        poll_stdio(&mut consumer, &mut output, b""),
        consumed(StreamResult::Completed, 0)
    );
    let answer = poll_stdio(&mut consumer, &mut output, b"abc");
    assert_eq!(&rt; answer, consumed(StreamResult::Completed, 2));
    // the flush fails after the bytes were taken
    let answer = poll_stdio(&mut consumer, &mut output, b"c");
    assert_eq!(&rt; answer, consumed(StreamResult::Dropped, 1));
    assert_eq!(&rt; consumer.result(), Some(CliErrorCode::Pipe));
    let answer = poll_stdio(&mut consumer, &mut output, b"d");
    assert_eq!(&rt; answer, consumed(StreamResult::Dropped, 0));
    assert!(&rt; output.sink().taken() == b"abc".as_slice());
    Ok(())
}

#[test]
fn a_failed_write_takes_nothing(rt: HostRuntime) -> Result<(), Fail> {
    let alloc = rt.alloc();
    let fails = sink(alloc, 64, &[SinkPlan::Fail(IoKind::BrokenPipe)])?;
    let mut output = StdioOutputStream::new(fails);
    let mut consumer = OutputStreamConsumer::new();
    let answer = poll_stdio(&mut consumer, &mut output, b"abc");
    assert_eq!(&rt; answer, consumed(StreamResult::Dropped, 0));
    assert_eq!(&rt; consumer.result(), Some(CliErrorCode::Pipe));
    assert!(&rt; output.sink().taken().is_empty());
    Ok(())
}

#[test]
fn an_output_that_takes_nothing_ends_with_io(rt: HostRuntime) -> Result<(), Fail> {
    let alloc = rt.alloc();
    let mut pipe = MemoryOutputPipe::new(alloc, 2)?;
    let mut consumer = OutputStreamConsumer::new();
    let got = Polled::Ready(pipe.poll_write(b"abc"));
    assert_eq!(&rt; consumer.wrote(got, false), Wrote::ThenFlush(2));
    let answer = consumer.flushed(Polled::Ready(()), 2, false);
    assert_eq!(&rt; answer, consumed(StreamResult::Completed, 2));
    let got = Polled::Ready(pipe.poll_write(b"c"));
    let answer = Wrote::Now(consumed(StreamResult::Dropped, 0));
    assert_eq!(&rt; consumer.wrote(got, false), answer);
    assert_eq!(&rt; consumer.result(), Some(CliErrorCode::Io));
    Ok(())
}
