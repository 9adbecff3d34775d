use crate::{
    FileSink, FileSource, I32Exit, IoKind, MemSink, MemSource, OutOfMemory, Plan, Sink, SinkPlan,
    Source, StdSink, StdSource, TrapText, TrappableError, WriteStop, write_all,
};
use std::alloc::{AllocError, Allocator, Global};
use std::fs::{Metadata, OpenFile, OpenOptions};
use std::io::{Read, Seek, SeekFrom, Write};
use std::process::Abort;
use std::rt::Files;
use std::test::Fail;
use std::{fs, io, process};

const NUMBERS: u32 = 50_000;

// The numbers from 0 on, four bytes each: 200,000 bytes of which no four at a multiple of 4 are
// those of another place.
fn all_different(alloc: Global) -> Result<Vec<u8>, AllocError> {
    let mut bytes = Vec::new(alloc);
    for number in 0..NUMBERS {
        bytes.extend_from_slice(&number.to_be_bytes())?;
    }
    Ok(bytes)
}

// the path of a file of this process
fn own_path(rt: &HostRuntime, name: &str) -> Result<String, AllocError> {
    let id = process::id(rt.process());
    format!(in rt.alloc(); "/tmp/wasi_base_{name}_{id}")
}

// reads to the end in pieces of at most 65536 bytes
fn read_whole<S: Source>(source: &mut S, alloc: Global) -> Result<Vec<u8>, Fail> {
    let mut bytes = Vec::new(alloc);
    let mut buf = vec![in alloc; 0u8; 65536]?;
    for _ in 0..1000 {
        match source.read(&mut buf) {
            Ok(0) => break,
            Ok(count) => bytes.extend_from_slice(&buf[..count])?,
            Err(kind) => return Err(Fail::from(kind)),
        }
    }
    Ok(bytes)
}

mod stream_errors;

#[test]
fn a_file_is_opened_at_the_first_read(rt: HostRuntime) -> Result<(), Fail> {
    let alloc = rt.alloc();
    let mut buf = [0u8; 4];
    let mut missing = FileSource::new(&rt, String::from_str(alloc, "/nonexistent/file")?);
    assert_eq!(rt; missing.read(&mut []), Ok(0));
    assert_eq!(rt; missing.read(&mut buf), Err(IoKind::NotFound));
    let mut folder = FileSource::new(&rt, String::from_str(alloc, "/")?);
    assert_eq!(rt; folder.read(&mut buf), Err(IoKind::IsADirectory));
    let mut file = FileSource::new(&rt, String::from_str(alloc, "/proc/sys/kernel/ostype")?);
    assert_eq!(rt; file.read(&mut buf), Ok(4));
    assert_eq!(rt; buf, *b"Linu");
    Ok(())
}

#[test]
fn memory_follows_its_plan(rt: HostRuntime) -> Result<(), Fail> {
    let alloc = rt.alloc();
    let plan = Vec::from_array(alloc, [Plan::Take(0), Plan::Fail(IoKind::Other)])?;
    let mut source = MemSource::new(b"abc".to_vec(alloc)?, plan);
    let mut buf = [0u8; 8];
    assert_eq!(rt; source.read(&mut buf), Ok(1));
    assert_eq!(rt; source.read(&mut buf), Err(IoKind::Other));
    assert_eq!(rt; source.read(&mut buf), Ok(2));
    assert_eq!(rt; source.read(&mut buf), Ok(0));
    let plan = Vec::from_array(
        alloc,
        [SinkPlan::FlushFail(IoKind::Other), SinkPlan::Take(2)],
    )?;
    let mut sink = MemSink::new(alloc, 3, plan)?;
    assert_eq!(rt; sink.write(b"abc"), Ok(2));
    assert_eq!(rt; sink.write(b"cde"), Ok(1));
    assert_eq!(rt; sink.write(b"def"), Err(IoKind::Other));
    assert_eq!(rt; sink.flush(), Err(IoKind::Other));
    assert_eq!(rt; sink.flush(), Ok(()));
    assert_eq!(rt; sink.taken(), b"abc".as_slice());
    Ok(())
}

#[test]
fn a_file_is_made_at_the_first_write(rt: HostRuntime) -> Result<(), Fail> {
    let alloc = rt.alloc();
    let mut missing = FileSink::new(&rt, String::from_str(alloc, "/nonexistent/file")?);
    assert_eq!(rt; missing.flush(), Ok(()));
    assert_eq!(rt; missing.write(b"a"), Err(IoKind::NotFound));
    let mut nothing = FileSink::new(&rt, String::from_str(alloc, "/dev/null")?);
    assert_eq!(rt; nothing.write(b"abc"), Ok(3));
    Ok(())
}

#[test]
fn a_file_tells_its_fault(rt: HostRuntime) -> Result<(), Fail> {
    let alloc = rt.alloc();
    let mut folder = FileSink::new(&rt, String::from_str(alloc, "/")?);
    assert_eq!(rt; folder.write(b"a"), Err(IoKind::IsADirectory));
    let mut full = FileSink::new(&rt, String::from_str(alloc, "/dev/full")?);
    assert_eq!(rt; full.write(b"a"), Err(IoKind::Other));
    Ok(())
}

#[test]
fn all_is_written_up_to_the_fault(rt: HostRuntime) -> Result<(), Fail> {
    let alloc = rt.alloc();
    let plan = Vec::from_array(alloc, [SinkPlan::Take(2), SinkPlan::Fail(IoKind::NotFound)])?;
    let mut sink = MemSink::new(alloc, 64, plan)?;
    let stop = WriteStop {
        taken: 2,
        kind: IoKind::NotFound,
    };
    assert_eq!(rt; write_all(&mut sink, b"abcd"), Err(stop));
    assert_eq!(rt; sink.taken(), b"ab".as_slice());
    Ok(())
}

fn push_one(items: &mut Vec<u8>) -> Result<(), OutOfMemory> {
    items.push(1)?;
    Ok(())
}

#[test]
fn a_failed_push_is_want_of_memory(rt: HostRuntime) -> Result<(), Fail> {
    let mut items = Vec::new(rt.alloc());
    assert_eq!(rt; push_one(&mut items), Ok(()));
    assert_eq!(rt; items.len(), 1);
    Ok(())
}

#[test]
fn a_long_file_is_written_and_read_in_order(rt: HostRuntime) -> Result<(), Fail> {
    let alloc = rt.alloc();
    let bytes = all_different(alloc)?;
    let path = own_path(&rt, "file")?;
    let mut sink = FileSink::new(&rt, path.clone()?);
    for piece in bytes.chunks(65536) {
        write_all(&mut sink, piece)?;
    }
    sink.flush()?;
    assert_eq!(rt; fs::read(&rt, path.as_str())?, bytes);
    let mut source = FileSource::new(&rt, path.clone()?);
    assert_eq!(rt; read_whole(&mut source, alloc)?, bytes);
    assert_eq!(rt; source.read(&mut [0u8; 4]), Ok(0));
    fs::remove_file(&rt, path.as_str())?;
    Ok(())
}

#[test]
fn a_long_stream_is_written_and_read_in_order(rt: HostRuntime) -> Result<(), Fail> {
    let alloc = rt.alloc();
    let bytes = all_different(alloc)?;
    let path = own_path(&rt, "stream")?;
    let mut sink = StdSink::new(fs::create(&rt, path.as_str())?);
    for piece in bytes.chunks(65536) {
        write_all(&mut sink, piece)?;
    }
    sink.flush()?;
    assert_eq!(rt; fs::read(&rt, path.as_str())?, bytes);
    let mut source = StdSource::new(fs::open(&rt, path.as_str())?);
    assert_eq!(rt; read_whole(&mut source, alloc)?, bytes);
    assert_eq!(rt; source.read(&mut [0u8; 4]), Ok(0));
    fs::remove_file(&rt, path.as_str())?;
    Ok(())
}

// A file that takes three bytes of a piece at most and none that begins with '-', refuses pieces
// of more than eight, and can't be flushed.
#[derive(Drop)]
struct Narrow;

impl Write for Narrow {
    fn write(&mut self, piece: &[u8]) -> io::Result<usize> {
        match piece {
            [b'-', ..] => Ok(0),
            _ if piece.len() > 8 => Err(io::Error::from(io::ErrorKind::PermissionDenied)),
            _ => Ok(piece.len().min(3)),
        }
    }

    fn flush(&mut self) -> io::Result<()> {
        Err(io::Error::from(io::ErrorKind::BrokenPipe))
    }
}

fn unsupported<T>() -> io::Result<T> {
    Err(io::Error::from(io::ErrorKind::Unsupported))
}

impl Read for Narrow {
    fn read(&mut self, _: &mut [u8]) -> io::Result<usize> {
        Err(io::Error::from(io::ErrorKind::Unsupported))
    }
}

impl Seek for Narrow {
    fn seek(&mut self, _: SeekFrom) -> io::Result<u64> {
        unsupported()
    }
}

impl OpenFile for Narrow {
    fn metadata(&self) -> io::Result<Metadata> {
        unsupported()
    }

    fn set_len(&self, _: u64) -> io::Result<()> {
        unsupported()
    }

    fn sync_all(&self) -> io::Result<()> {
        unsupported()
    }

    fn sync_data(&self) -> io::Result<()> {
        unsupported()
    }
}

// A system in which each file is such a one.
struct NarrowFiles;

impl Files for NarrowFiles {
    type File = Narrow;

    type Dir = Narrow;

    fn open_file(&self, _: &OpenOptions, _: &str) -> io::Result<Narrow> {
        Ok(Narrow)
    }

    fn open_dir(&self, _: &str) -> io::Result<Narrow> {
        unsupported()
    }

    fn metadata(&self, _: &str) -> io::Result<Metadata> {
        unsupported()
    }

    fn symlink_metadata(&self, _: &str) -> io::Result<Metadata> {
        unsupported()
    }

    fn copy(&self, _: &str, _: &str) -> io::Result<u64> {
        unsupported()
    }

    fn rename(&self, _: &str, _: &str) -> io::Result<()> {
        unsupported()
    }

    fn remove_file(&self, _: &str) -> io::Result<()> {
        unsupported()
    }

    fn create_dir(&self, _: &str) -> io::Result<()> {
        unsupported()
    }

    fn remove_dir(&self, _: &str) -> io::Result<()> {
        unsupported()
    }

    fn remove_dir_all<B: Allocator>(&self, _: B, _: &str) -> io::Result<()> {
        unsupported()
    }
}

fn is_narrow<K: Sink>(rt: &impl Abort, sink: &mut K) {
    assert_eq!(rt; sink.write(b"abcdef"), Ok(3));
    assert_eq!(rt; sink.write(b"-"), Err(IoKind::WriteZero));
    assert_eq!(rt; sink.write(b"123456789"), Err(IoKind::PermissionDenied));
    assert_eq!(rt; sink.flush(), Err(IoKind::BrokenPipe));
}

#[test]
fn a_sink_answers_what_its_file_does(rt: HostRuntime) -> Result<(), Fail> {
    is_narrow(&rt, &mut StdSink::new(Narrow));
    let path = String::from_str(rt.alloc(), "file")?;
    is_narrow(&rt, &mut FileSink::new(&NarrowFiles, path));
    Ok(())
}

#[test]
fn each_trap_has_its_text(rt: HostRuntime) -> Result<(), Fail> {
    let requested = TrapText::RequestedLength {
        length: 70_000,
        limit: 65_536,
    };
    let texts = [
        (TrapText::ResourceNotPresent, "resource not present"),
        (TrapText::ResourceWrongType, "resource has another type"),
        (TrapText::ResourceHasChildren, "resource has children"),
        (TrapText::ResourceTableFull, "resource table is full"),
        (requested, "requested len 70000 exceeds limit 65536"),
        (TrapText::NumberOutOfRange, "number out of range"),
        (TrapText::SockRecvUnsupported, "sock_recv unsupported"),
        (TrapText::SockSendUnsupported, "sock_send unsupported"),
        (
            TrapText::SockShutdownUnsupported,
            "sock_shutdown unsupported",
        ),
        (
            TrapText::WriteBeyondCapacity,
            "write beyond capacity of MemoryOutputPipe",
        ),
        (TrapText::WriteExceededBudget, "write exceeded budget"),
        (
            TrapText::WriteWhileFlushPending,
            "write while a flush is pending",
        ),
        (
            TrapText::ConcurrentReads,
            "concurrent reads are not supported",
        ),
        (
            TrapText::ConcurrentSkips,
            "concurrent skips are not supported",
        ),
        (
            TrapText::ConcurrentCheckWrites,
            "concurrent writes are not supported",
        ),
        (
            TrapText::ConcurrentWrites,
            "concurrent writes not supported yet",
        ),
        (
            TrapText::ConcurrentFlushes,
            "concurrent flushes not supported yet",
        ),
    ];
    for (trap, text) in texts {
        assert_eq!(rt; format!(in rt.alloc(); "{trap}")?.as_str(), text);
    }
    Ok(())
}

#[test]
fn each_other_end_has_its_text(rt: HostRuntime) -> Result<(), Fail> {
    let alloc = rt.alloc();
    let exit = I32Exit(-3);
    assert_eq!(rt;
        format!(in alloc; "{exit}")?.as_str(),
        "Exited with i32 exit status -3"
    );
    assert_eq!(rt;
        format!(in alloc; "{OutOfMemory}")?.as_str(),
        "out of memory"
    );
    let texts = [
        (TrappableError::Normal(7u8), "7"),
        (
            TrappableError::Trap(TrapText::NumberOutOfRange),
            "number out of range",
        ),
        (TrappableError::OutOfMemory, "out of memory"),
    ];
    for (error, text) in texts {
        assert_eq!(rt; format!(in alloc; "{error}")?.as_str(), text);
    }
    Ok(())
}
