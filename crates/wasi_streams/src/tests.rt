mod buffered;

use crate::{
    ClosedInputStream, ClosedOutputStream, InputFile, InputStream, MemoryInputPipe,
    MemoryOutputPipe, OutputFile, OutputStream, Pollable, SinkOutputStream, StdioOutputStream,
};
use bytes::Bytes;
use std::alloc::Global;
use std::process::Abort;
use std::test::Fail;
use wasi_base::{
    IoKind, MemSink, MemSource, OutOfMemory, Plan, Polled, SinkPlan, StreamError, TrapText,
};

fn infile(alloc: Global, bytes: &[u8], plan: &[Plan]) -> Result<InputFile<MemSource>, OutOfMemory> {
    let bytes = Vec::from_slice(alloc, bytes)?;
    let plan = Vec::from_slice(alloc, plan)?;
    Ok(InputFile::new(MemSource::new(bytes, plan)))
}

fn sink(alloc: Global, plan: &[SinkPlan]) -> Result<MemSink, OutOfMemory> {
    MemSink::new(alloc, 64, Vec::from_slice(alloc, plan)?)
}

// a read of this size gives these bytes
fn gives<S: InputStream>(rt: &impl Abort, alloc: Global, stream: &mut S, size: u64, want: &[u8]) {
    match stream.read(alloc, size) {
        Ok(bytes) => assert!(rt; bytes.as_slice() == want),
        Err(_) => assert!(rt; false),
    }
}

// a read of this size is refused
fn refuses<S: InputStream>(
    rt: &impl Abort,
    alloc: Global,
    stream: &mut S,
    size: u64,
    want: StreamError,
) {
    match stream.read(alloc, size) {
        Ok(_) => assert!(rt; false),
        Err(error) => assert_eq!(rt; error, want),
    }
}

fn skips<S: InputStream>(
    rt: &impl Abort,
    stream: &mut S,
    size: u64,
    want: Result<u64, StreamError>,
) {
    assert_eq!(rt; stream.skip(size), want);
}

// what a polled read gave
fn polled(rt: &impl Abort, answer: Result<Polled<Bytes>, OutOfMemory>, want: &[u8]) {
    match answer {
        Ok(Polled::Ready(bytes)) => assert!(rt; bytes.as_slice() == want),
        Ok(Polled::Pending | Polled::Failed(_)) | Err(_) => assert!(rt; false),
    }
}

fn writes<W: OutputStream>(
    rt: &impl Abort,
    stream: &mut W,
    bytes: &'static [u8],
    want: Result<(), StreamError>,
) {
    assert_eq!(rt; stream.write(Bytes::from_static(bytes)), want);
}

fn flushes<W: OutputStream>(rt: &impl Abort, stream: &mut W, want: Result<(), StreamError>) {
    assert_eq!(rt; stream.flush(), want);
}

fn checks<W: OutputStream>(rt: &impl Abort, stream: &mut W, want: Result<u64, StreamError>) {
    assert_eq!(rt; stream.check_write(), want);
}

fn is_ready<P: Pollable>(rt: &impl Abort, stream: &mut P) {
    assert!(rt; stream.ready());
}

#[test]
fn a_pipe_is_read_in_pieces(rt: HostRuntime) -> Result<(), Fail> {
    let alloc = rt.alloc();
    let text = b"the quick brown fox jumped over the three lazy dogs";
    let mut pipe = MemoryInputPipe::new(Bytes::copy_from_slice(alloc, text)?);
    gives(&rt, alloc, &mut pipe, 10, b"the quick ");
    gives(&rt, alloc, &mut pipe, 10, b"brown fox ");
    gives(&rt, alloc, &mut pipe, 10, b"jumped ove");
    gives(&rt, alloc, &mut pipe, 10, b"r the thre");
    gives(&rt, alloc, &mut pipe, 0, b"");
    gives(&rt, alloc, &mut pipe, 18446744073709551615, b"e lazy dogs");
    refuses(&rt, alloc, &mut pipe, 0, StreamError::Closed);
    is_ready(&rt, &mut pipe);
    Ok(())
}

#[test]
fn a_pipe_is_skipped_and_polled(rt: HostRuntime) -> Result<(), Fail> {
    let mut pipe = MemoryInputPipe::new(Bytes::from_static(b"abc"));
    skips(&rt, &mut pipe, 2, Ok(2));
    let answer = pipe.poll_read(5);
    polled(&rt, answer, b"c");
    let answer = pipe.poll_read(5);
    polled(&rt, answer, b"");
    skips(&rt, &mut pipe, 1, Err(StreamError::Closed));
    Ok(())
}

#[test]
fn a_file_is_read_as_its_source_gives(rt: HostRuntime) -> Result<(), Fail> {
    let alloc = rt.alloc();
    let mut file = infile(alloc, b"ab", &[Plan::Take(1)])?;
    gives(&rt, alloc, &mut file, 0, b"");
    gives(&rt, alloc, &mut file, 5, b"a");
    gives(&rt, alloc, &mut file, 5, b"b");
    refuses(&rt, alloc, &mut file, 5, StreamError::Closed);
    is_ready(&rt, &mut file);
    Ok(())
}

#[test]
fn a_fault_in_the_midst_leaves_the_file_open(rt: HostRuntime) -> Result<(), Fail> {
    let alloc = rt.alloc();
    let plan = [Plan::Take(1), Plan::Fail(IoKind::BrokenPipe), Plan::Take(1)];
    let mut file = infile(alloc, b"abcd", &plan)?;
    let fault = StreamError::LastOperationFailed(IoKind::BrokenPipe);
    gives(&rt, alloc, &mut file, 5, b"a");
    refuses(&rt, alloc, &mut file, 5, fault);
    skips(&rt, &mut file, 5, Ok(1));
    skips(&rt, &mut file, 0, Ok(0));
    gives(&rt, alloc, &mut file, 65537, b"cd");
    skips(&rt, &mut file, 5, Err(StreamError::Closed));
    Ok(())
}

#[test]
fn a_file_is_polled(rt: HostRuntime) -> Result<(), Fail> {
    let alloc = rt.alloc();
    let mut file = infile(alloc, b"ab", &[Plan::Fail(IoKind::NotFound)])?;
    assert!(rt;
        matches!(
            &file.poll_read(alloc, 4),
            Ok(Polled::Failed(IoKind::NotFound))
        )
    );
    let answer = file.poll_read(alloc, 4);
    polled(&rt, answer, b"ab");
    let answer = file.poll_read(alloc, 4);
    polled(&rt, answer, b"");
    Ok(())
}

#[test]
fn a_pipe_takes_up_to_its_capacity(rt: HostRuntime) -> Result<(), Fail> {
    let mut pipe = MemoryOutputPipe::new(rt.alloc(), 3)?;
    checks(&rt, &mut pipe, Ok(3));
    writes(&rt, &mut pipe, b"abc", Ok(()));
    checks(&rt, &mut pipe, Err(StreamError::Closed));
    let trap = StreamError::Trap(TrapText::WriteBeyondCapacity);
    writes(&rt, &mut pipe, b"d", Err(trap));
    flushes(&rt, &mut pipe, Ok(()));
    is_ready(&rt, &mut pipe);
    assert_eq!(rt; pipe.contents(), b"abc".as_slice());
    Ok(())
}

#[test]
fn a_polled_pipe_takes_what_fits(rt: HostRuntime) -> Result<(), Fail> {
    let mut pipe = MemoryOutputPipe::new(rt.alloc(), 3)?;
    assert_eq!(rt; pipe.poll_write(b"ab"), 2);
    assert_eq!(rt; pipe.poll_write(b"cd"), 1);
    assert_eq!(rt; pipe.poll_write(b"d"), 0);
    assert_eq!(rt; pipe.contents(), b"abc".as_slice());
    Ok(())
}

#[test]
fn what_went_out_before_a_fault_stays_out(rt: HostRuntime) -> Result<(), Fail> {
    let alloc = rt.alloc();
    let plan = [SinkPlan::Take(2), SinkPlan::Fail(IoKind::BrokenPipe)];
    let mut file = OutputFile::new(sink(alloc, &plan)?);
    let fault = StreamError::LastOperationFailed(IoKind::BrokenPipe);
    writes(&rt, &mut file, b"abc", Err(fault));
    assert_eq!(rt; file.sink().taken(), b"ab".as_slice());
    writes(&rt, &mut file, b"d", Ok(()));
    assert_eq!(rt; file.sink().taken(), b"abd".as_slice());
    let mut stdio = StdioOutputStream::new(sink(alloc, &plan)?);
    writes(&rt, &mut stdio, b"abc", Err(StreamError::Closed));
    assert_eq!(rt; stdio.sink().taken(), b"ab".as_slice());
    writes(&rt, &mut stdio, b"d", Ok(()));
    assert_eq!(rt; stdio.sink().taken(), b"abd".as_slice());
    Ok(())
}

// an output with room for 131072 bytes
fn wide(alloc: Global) -> Result<StdioOutputStream<MemSink>, OutOfMemory> {
    let sink = MemSink::new(alloc, 131072, Vec::new(alloc))?;
    Ok(StdioOutputStream::new(sink))
}

fn zeros(alloc: Global, count: usize) -> Result<Bytes, OutOfMemory> {
    Ok(Bytes::from_vec(vec![in alloc; 0u8; count]?)?)
}

#[test]
fn a_standard_output_takes_65536_bytes_at_once(rt: HostRuntime) -> Result<(), Fail> {
    let alloc = rt.alloc();
    let mut stdio = wide(alloc)?;
    checks(&rt, &mut stdio, Ok(65536));
    assert_eq!(rt; stdio.write(zeros(alloc, 65536)?), Ok(()));
    let trap = StreamError::Trap(TrapText::WriteExceededBudget);
    assert_eq!(rt; stdio.write(zeros(alloc, 65537)?), Err(trap));
    assert_eq!(rt; stdio.sink().taken().len(), 65536);
    is_ready(&rt, &mut stdio);
    Ok(())
}

#[test]
fn a_flush_may_fail(rt: HostRuntime) -> Result<(), Fail> {
    let alloc = rt.alloc();
    let plan = [SinkPlan::FlushFail(IoKind::BrokenPipe)];
    let mut file = OutputFile::new(sink(alloc, &plan)?);
    let fault = StreamError::LastOperationFailed(IoKind::BrokenPipe);
    checks(&rt, &mut file, Ok(65536));
    flushes(&rt, &mut file, Err(fault));
    flushes(&rt, &mut file, Ok(()));
    is_ready(&rt, &mut file);
    let mut stdio = StdioOutputStream::new(sink(alloc, &plan)?);
    flushes(&rt, &mut stdio, Err(StreamError::Closed));
    flushes(&rt, &mut stdio, Ok(()));
    Ok(())
}

#[test]
fn a_polled_file_takes_all(rt: HostRuntime) -> Result<(), Fail> {
    let plan = [
        SinkPlan::Take(1),
        SinkPlan::FlushFail(IoKind::BrokenPipe),
        SinkPlan::Take(1),
        SinkPlan::Take(1),
    ];
    let mut file = OutputFile::new(sink(rt.alloc(), &plan)?);
    assert_eq!(rt; file.poll_write(b"abc"), Polled::Ready(3));
    assert_eq!(rt; file.poll_flush(), Polled::Failed(IoKind::BrokenPipe));
    assert_eq!(rt; file.poll_flush(), Polled::Ready(()));
    assert_eq!(rt; file.sink().taken(), b"abc".as_slice());
    Ok(())
}

#[test]
fn a_polled_standard_output_takes_what_its_sink_takes(rt: HostRuntime) -> Result<(), Fail> {
    let plan = [
        SinkPlan::FlushFail(IoKind::BrokenPipe),
        SinkPlan::Take(1),
        SinkPlan::Fail(IoKind::BrokenPipe),
    ];
    let mut stdio = StdioOutputStream::new(sink(rt.alloc(), &plan)?);
    assert_eq!(rt; stdio.poll_write(b"abc"), Polled::Ready(1));
    assert_eq!(rt; stdio.poll_write(b"bc"), Polled::Failed(IoKind::BrokenPipe));
    assert_eq!(rt; stdio.poll_flush(), Polled::Failed(IoKind::BrokenPipe));
    assert_eq!(rt; stdio.sink().taken(), b"a".as_slice());
    Ok(())
}

#[test]
fn closed_streams_and_the_sink(rt: HostRuntime) {
    let mut input = ClosedInputStream;
    refuses(&rt, rt.alloc(), &mut input, 0, StreamError::Closed);
    skips(&rt, &mut input, 1, Err(StreamError::Closed));
    is_ready(&rt, &mut input);
    let mut closed = ClosedOutputStream;
    checks(&rt, &mut closed, Err(StreamError::Closed));
    writes(&rt, &mut closed, b"a", Err(StreamError::Closed));
    flushes(&rt, &mut closed, Err(StreamError::Closed));
    is_ready(&rt, &mut closed);
    let mut sink = SinkOutputStream;
    checks(&rt, &mut sink, Ok(18446744073709551615));
    writes(&rt, &mut sink, b"a", Ok(()));
    flushes(&rt, &mut sink, Ok(()));
    is_ready(&rt, &mut sink);
}

#[test]
fn the_least_and_the_greatest_reads_find_memory(rt: HostRuntime) -> Result<(), Fail> {
    let alloc = rt.alloc();
    let bytes = vec![in alloc; 0x7bu8; 65537]?;
    let most = vec![in alloc; 0x7bu8; 65536]?;
    let mut file = infile(alloc, &bytes, &[])?;
    gives(&rt, alloc, &mut file, 0, b"");
    gives(&rt, alloc, &mut file, 18446744073709551615, &most);
    let answer = file.poll_read(alloc, 0);
    polled(&rt, answer, b"");
    let answer = file.poll_read(alloc, 18446744073709551615);
    polled(&rt, answer, b"{");
    refuses(
        &rt,
        alloc,
        &mut file,
        18446744073709551615,
        StreamError::Closed,
    );
    Ok(())
}

#[test]
fn the_least_and_the_greatest_pipes_find_memory(rt: HostRuntime) -> Result<(), Fail> {
    let alloc = rt.alloc();
    let mut least = MemoryOutputPipe::new(alloc, 0)?;
    checks(&rt, &mut least, Err(StreamError::Closed));
    let mut greatest = MemoryOutputPipe::new(alloc, 1048576)?;
    checks(&rt, &mut greatest, Ok(1048576));
    let bytes = vec![in alloc; 0x7bu8; 1048576]?;
    let mut pipe = MemoryInputPipe::new(Bytes::copy_from_slice(alloc, &bytes)?);
    let answer = pipe.poll_read(0);
    polled(&rt, answer, b"");
    let answer = pipe.poll_read(18446744073709551615);
    polled(&rt, answer, &bytes);
    Ok(())
}
