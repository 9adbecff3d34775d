use super::epoch;
use crate::{DirectoryStream, FileStreams, directory_stream};
use bitflags::Flags;
use std::alloc::Global;
use std::process::Abort;
use std::test::Fail;
use wasi_base::{IoKind, TrappableError};
use wasi_fs::{Descriptor, Tree};
use wasi_fs_types::{DescriptorFlags, ErrorCode, FilesystemResult, OpenFlags, PathFlags};
use wasi_producers::StreamResult;

// a tree whose root has so many files, made from the last name to the first
fn tree_of(rt: &impl Abort, alloc: Global, count: u8) -> Result<Tree, Fail> {
    let mut tree = Tree::new(alloc, 0, epoch())?;
    for number in 0..count {
        let name = format!(in alloc; "{}", 999 - u64::from(number))?;
        let added = tree.add_file(name.as_str(), b"hello", epoch()).is_ok();
        assert!(rt; added);
    }
    Ok(tree)
}

fn gives(
    rt: &impl Abort,
    alloc: Global,
    stream: &mut DirectoryStream,
    answer: StreamResult,
    first: &str,
    count: usize,
) {
    match stream.poll_produce(alloc, None) {
        Ok((given, entries)) => {
            assert_eq!(rt; given, answer);
            assert_eq!(rt; entries.len(), count);
            match entries.first() {
                Some(entry) => assert!(rt; entry.name.as_str() == first),
                None => assert!(rt; first.is_empty()),
            }
        }
        Err(_) => assert!(rt; false),
    }
}

// the polls of a directory with so many entries: each one's answer, first name and count
fn streams(
    rt: &impl Abort,
    alloc: Global,
    count: u8,
    polls: &[(StreamResult, &str, usize)],
) -> Result<(), Fail> {
    let mut tree = tree_of(rt, alloc, count)?;
    let root = tree.root();
    let mut stream = directory_stream(&mut tree, &root)?;
    for (answer, first, count) in polls {
        gives(rt, alloc, &mut stream, *answer, *first, *count);
    }
    Ok(())
}

#[test]
fn directories_of_few_entries(rt: HostRuntime) -> Result<(), Fail> {
    let alloc = rt.alloc();
    streams(&rt, alloc, 0, &[(StreamResult::Dropped, "", 0)])?;
    streams(&rt, alloc, 1, &[(StreamResult::Dropped, "999", 1)])
}

#[test]
fn directories_of_many_entries(rt: HostRuntime) -> Result<(), Fail> {
    let alloc = rt.alloc();
    let all = StreamResult::Completed;
    let end = StreamResult::Dropped;
    streams(&rt, alloc, 32, &[(all, "968", 32), (end, "", 0)])?;
    streams(&rt, alloc, 33, &[(all, "967", 32), (end, "999", 1)])?;
    let polls = [
        (all, "900", 32),
        (all, "932", 32),
        (all, "964", 32),
        (end, "996", 4),
    ];
    streams(&rt, alloc, 100, &polls)
}

#[test]
fn a_fault_of_a_listing_ends_the_stream(rt: HostRuntime) -> Result<(), Fail> {
    let alloc = rt.alloc();
    let mut tree = tree_of(&rt, alloc, 2)?;
    tree.fail_next(IoKind::PermissionDenied);
    let root = tree.root();
    let mut stream = directory_stream(&mut tree, &root)?;
    assert!(&rt; stream.result() == Some(&Err(ErrorCode::Access)));
    gives(&rt, alloc, &mut stream, StreamResult::Dropped, "", 0);
    let mut stream = directory_stream(&mut tree, &root)?;
    gives(&rt, alloc, &mut stream, StreamResult::Dropped, "998", 2);
    Ok(())
}

/// The code of a refusal, if it is one.
fn code_of<T: Drop>(outcome: FilesystemResult<T>) -> Option<ErrorCode> {
    match outcome {
        Err(TrappableError::Normal(code)) => Some(code),
        Ok(_) | Err(TrappableError::Trap(_) | TrappableError::OutOfMemory) => None,
    }
}

#[test]
fn streams_of_what_is_open(rt: HostRuntime) -> Result<(), Fail> {
    let alloc = rt.alloc();
    let tree = tree_of(&rt, alloc, 1)?;
    let root = Descriptor::Dir(tree.root());
    let is_directory = Some(ErrorCode::IsDirectory);
    assert_eq!(&rt; code_of(tree.read_via_stream(&root, 0)), is_directory);
    let bad = Some(ErrorCode::BadDescriptor);
    assert_eq!(&rt; code_of(tree.write_via_stream(&root, 0)), bad);
    assert_eq!(&rt; code_of(tree.append_via_stream(&root)), bad);
    assert!(&rt; tree.read_directory(&root).is_ok());
    Ok(())
}

#[test]
fn streams_of_a_file_that_is_open_to_read(rt: HostRuntime) -> Result<(), Fail> {
    let alloc = rt.alloc();
    let mut tree = tree_of(&rt, alloc, 1)?;
    let root = Descriptor::Dir(tree.root());
    let opened = tree.open_at(
        &root,
        PathFlags::empty(),
        "999",
        OpenFlags::empty(),
        DescriptorFlags::READ,
        epoch(),
        true,
    );
    let at = opened.expect(&rt, "a file");
    let not_permitted = Some(ErrorCode::NotPermitted);
    assert_eq!(&rt; code_of(tree.write_via_stream(&at, 0)), not_permitted);
    assert_eq!(&rt; code_of(tree.append_via_stream(&at)), not_permitted);
    let not_directory = Some(ErrorCode::NotDirectory);
    assert_eq!(&rt; code_of(tree.read_directory(&at)), not_directory);
    let mut stream = tree.read_via_stream(&at, 1).expect(&rt, "a stream");
    let answer = stream.poll_produce(alloc, &mut tree, None, false)?;
    assert_eq!(&rt; answer.result, StreamResult::Completed);
    assert!(&rt; answer.bytes.as_slice() == b"ello".as_slice());
    Ok(())
}
