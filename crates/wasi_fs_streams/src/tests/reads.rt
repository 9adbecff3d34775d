use super::{FILE, store_of};
use crate::ReadStreamProducer;
use std::alloc::Global;
use std::process::Abort;
use std::test::Fail;
use wasi_base::IoKind;
use wasi_fs::MemStore;
use wasi_fs_types::ErrorCode;
use wasi_producers::StreamResult;

fn gives(
    rt: &impl Abort,
    alloc: Global,
    stream: &mut ReadStreamProducer,
    store: &mut MemStore,
    room: Option<u64>,
    want: (StreamResult, &[u8]),
) {
    match stream.poll_produce(alloc, store, room, false) {
        Ok(answer) => {
            assert_eq!(rt; answer.result, want.0);
            assert!(rt; answer.bytes.as_slice() == want.1);
        }
        Err(_) => assert!(rt; false),
    }
}

#[test]
fn a_file_is_read_to_its_end(rt: HostRuntime) -> Result<(), Fail> {
    let alloc = rt.alloc();
    let mut store = store_of(0, Vec::from_slice(alloc, b"hello")?, None);
    let mut stream = ReadStreamProducer::new(FILE, 1);
    gives(
        &rt,
        alloc,
        &mut stream,
        &mut store,
        Some(0),
        (StreamResult::Completed, b""),
    );
    gives(
        &rt,
        alloc,
        &mut stream,
        &mut store,
        Some(2),
        (StreamResult::Completed, b"el"),
    );
    gives(
        &rt,
        alloc,
        &mut stream,
        &mut store,
        None,
        (StreamResult::Completed, b"lo"),
    );
    let stands = matches!(stream, ReadStreamProducer::Open { offset: 5, .. });
    assert!(&rt; stands);
    assert_eq!(&rt; stream.result(), None);
    gives(
        &rt,
        alloc,
        &mut stream,
        &mut store,
        Some(u64::MAX),
        (StreamResult::Dropped, b""),
    );
    assert_eq!(&rt; stream.result(), Some(Ok(())));
    gives(
        &rt,
        alloc,
        &mut stream,
        &mut store,
        Some(0),
        (StreamResult::Dropped, b""),
    );
    Ok(())
}

#[test]
fn a_poll_reads_at_most_65536_bytes(rt: HostRuntime) -> Result<(), Fail> {
    let alloc = rt.alloc();
    let mut store = store_of(0, vec![in alloc; 1u8; 70000]?, None);
    for (room, count) in [(None, 8192), (Some(65536), 65536), (Some(u64::MAX), 65536)] {
        let mut stream = ReadStreamProducer::new(FILE, 0);
        match stream.poll_produce(alloc, &mut store, room, false) {
            Ok(answer) => assert_eq!(&rt; answer.bytes.len(), count),
            Err(_) => assert!(&rt; false),
        }
    }
    Ok(())
}

#[test]
fn an_offset_at_the_greatest_number(rt: HostRuntime) -> Result<(), Fail> {
    let alloc = rt.alloc();
    // past the end of the file
    let mut store = store_of(0, Vec::from_slice(alloc, b"hi")?, None);
    let mut stream = ReadStreamProducer::new(FILE, u64::MAX);
    gives(
        &rt,
        alloc,
        &mut stream,
        &mut store,
        None,
        (StreamResult::Dropped, b""),
    );
    assert_eq!(&rt; stream.result(), Some(Ok(())));
    // bytes that stand there go out, and the offset passes it
    let mut store = store_of(u64::MAX - 1, Vec::from_slice(alloc, b"hi")?, None);
    let mut stream = ReadStreamProducer::new(FILE, u64::MAX - 1);
    gives(
        &rt,
        alloc,
        &mut stream,
        &mut store,
        Some(1),
        (StreamResult::Completed, b"h"),
    );
    gives(
        &rt,
        alloc,
        &mut stream,
        &mut store,
        Some(1),
        (StreamResult::Dropped, b"i"),
    );
    assert_eq!(&rt; stream.result(), Some(Err(ErrorCode::Overflow)));
    gives(
        &rt,
        alloc,
        &mut stream,
        &mut store,
        Some(1),
        (StreamResult::Dropped, b""),
    );
    Ok(())
}

#[test]
fn a_fault_ends_a_read(rt: HostRuntime) -> Result<(), Fail> {
    let alloc = rt.alloc();
    let mut store = store_of(0, Vec::from_slice(alloc, b"hi")?, Some(IoKind::Other));
    let mut stream = ReadStreamProducer::new(FILE, 0);
    // room for nothing makes no read
    gives(
        &rt,
        alloc,
        &mut stream,
        &mut store,
        Some(0),
        (StreamResult::Completed, b""),
    );
    gives(
        &rt,
        alloc,
        &mut stream,
        &mut store,
        None,
        (StreamResult::Dropped, b""),
    );
    assert_eq!(&rt; stream.result(), Some(Err(ErrorCode::Io)));
    assert_eq!(&rt; store.faults, 1);
    gives(
        &rt,
        alloc,
        &mut stream,
        &mut store,
        None,
        (StreamResult::Dropped, b""),
    );
    stream.close();
    assert_eq!(&rt; stream.result(), Some(Err(ErrorCode::Io)));
    // below the first byte
    let mut store = store_of(2, Vec::from_slice(alloc, b"hi")?, None);
    let mut stream = ReadStreamProducer::new(FILE, 1);
    gives(
        &rt,
        alloc,
        &mut stream,
        &mut store,
        None,
        (StreamResult::Dropped, b""),
    );
    assert_eq!(&rt; stream.result(), Some(Err(ErrorCode::Invalid)));
    Ok(())
}

#[test]
fn a_read_that_is_closed_or_refused(rt: HostRuntime) -> Result<(), Fail> {
    let alloc = rt.alloc();
    let mut store = store_of(0, Vec::from_slice(alloc, b"hi")?, None);
    let mut stream = ReadStreamProducer::new(FILE, 0);
    gives(
        &rt,
        alloc,
        &mut stream,
        &mut store,
        Some(1),
        (StreamResult::Completed, b"h"),
    );
    stream.close();
    assert_eq!(&rt; stream.result(), Some(Ok(())));
    gives(
        &rt,
        alloc,
        &mut stream,
        &mut store,
        Some(1),
        (StreamResult::Dropped, b""),
    );
    let stream = ReadStreamProducer::ended(ErrorCode::NotPermitted);
    assert_eq!(&rt; stream.result(), Some(Err(ErrorCode::NotPermitted)));
    Ok(())
}
