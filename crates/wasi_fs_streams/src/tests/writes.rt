use super::{FILE, no_bytes, store_of};
use crate::WriteStreamConsumer;
use std::alloc::Global;
use std::process::Abort;
use std::test::Fail;
use wasi_base::IoKind;
use wasi_fs::{At, MemStore};
use wasi_fs_types::ErrorCode;
use wasi_producers::{Consumed, StreamResult};

fn takes(
    rt: &impl Abort,
    alloc: Global,
    stream: &mut WriteStreamConsumer,
    store: &mut MemStore,
    piece: &[u8],
    answer: StreamResult,
    taken: u64,
) {
    let want = Consumed {
        result: answer,
        taken,
    };
    assert_eq!(rt; stream.poll_consume(alloc, store, piece, false), Ok(want));
}

#[test]
fn an_offset_that_passes_the_greatest_number(rt: HostRuntime) -> Result<(), Fail> {
    let alloc = rt.alloc();
    let place = At::Offset(u64::MAX - 1);
    let mut store = store_of(u64::MAX - 1, no_bytes(alloc), None);
    let mut stream = WriteStreamConsumer::new(FILE, place);
    takes(
        &rt,
        alloc,
        &mut stream,
        &mut store,
        b"abc",
        StreamResult::Dropped,
        3,
    );
    assert_eq!(&rt; stream.result(), Some(Err(ErrorCode::Overflow)));
    assert!(&rt; store.bytes.as_slice() == b"abc".as_slice());
    let mut store = store_of(u64::MAX - 1, no_bytes(alloc), None);
    let mut stream = WriteStreamConsumer::new(FILE, place);
    takes(
        &rt,
        alloc,
        &mut stream,
        &mut store,
        b"a",
        StreamResult::Completed,
        1,
    );
    assert_eq!(&rt; stream.result(), None);
    assert!(&rt; store.bytes.as_slice() == b"a".as_slice());
    Ok(())
}

#[test]
fn a_file_is_written_and_appended_to(rt: HostRuntime) -> Result<(), Fail> {
    let alloc = rt.alloc();
    let mut store = store_of(0, Vec::from_slice(alloc, b"hello")?, None);
    let mut stream = WriteStreamConsumer::new(FILE, At::Offset(1));
    takes(
        &rt,
        alloc,
        &mut stream,
        &mut store,
        b"a",
        StreamResult::Completed,
        1,
    );
    takes(
        &rt,
        alloc,
        &mut stream,
        &mut store,
        b"",
        StreamResult::Completed,
        0,
    );
    takes(
        &rt,
        alloc,
        &mut stream,
        &mut store,
        b"bc",
        StreamResult::Completed,
        2,
    );
    assert!(&rt; store.bytes.as_slice() == b"habco".as_slice());
    let mut end = WriteStreamConsumer::new(FILE, At::End);
    takes(
        &rt,
        alloc,
        &mut end,
        &mut store,
        b"de",
        StreamResult::Completed,
        2,
    );
    takes(
        &rt,
        alloc,
        &mut end,
        &mut store,
        b"f",
        StreamResult::Completed,
        1,
    );
    assert!(&rt; store.bytes.as_slice() == b"habcodef".as_slice());
    stream.close();
    assert_eq!(&rt; stream.result(), Some(Ok(())));
    takes(
        &rt,
        alloc,
        &mut stream,
        &mut store,
        b"x",
        StreamResult::Dropped,
        0,
    );
    assert!(&rt; store.bytes.as_slice() == b"habcodef".as_slice());
    Ok(())
}

#[test]
fn a_fault_ends_a_write(rt: HostRuntime) -> Result<(), Fail> {
    let alloc = rt.alloc();
    let mut store = store_of(0, no_bytes(alloc), Some(IoKind::BrokenPipe));
    let mut stream = WriteStreamConsumer::new(FILE, At::End);
    // also of no bytes
    takes(
        &rt,
        alloc,
        &mut stream,
        &mut store,
        b"",
        StreamResult::Dropped,
        0,
    );
    assert_eq!(&rt; stream.result(), Some(Err(ErrorCode::Pipe)));
    assert_eq!(&rt; store.faults, 1);
    takes(
        &rt,
        alloc,
        &mut stream,
        &mut store,
        b"a",
        StreamResult::Dropped,
        0,
    );
    stream.close();
    assert_eq!(&rt; stream.result(), Some(Err(ErrorCode::Pipe)));
    let stream = WriteStreamConsumer::ended(ErrorCode::Io);
    assert_eq!(&rt; stream.result(), Some(Err(ErrorCode::Io)));
    Ok(())
}
