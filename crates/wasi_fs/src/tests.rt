//! Calls on one small tree, number 0: node 0 is the root, with the directory `d` (1), in it the
//! file `f` (2) of two bytes, and beside it the link `l` (3) to `d`.

ghost use Rattle.wasi_fs.specs.Trees.{IsOf};

mod memory;
mod refusals;

use crate::{At, Descriptor, MemStore, Store, Tree};
use bitflags::Flags;
use std::alloc::Global;
use std::process::Abort;
use wasi_base::{IoKind, TrappableError};
use wasi_clocks::{Datetime, Instant, WallTime};
use wasi_fs_types::{
    DescriptorFlags, DescriptorType, ErrorCode, FilesystemResult, FsPerms, NewTimestamp, OpenFlags,
    PathFlags,
};

const EPOCH: Option<Datetime> = Some(Datetime {
    seconds: 0,
    nanoseconds: 0,
});

fn epoch() -> WallTime {
    WallTime {
        seconds: 0,
        nanoseconds: 0,
    }
}

fn small_tree(rt: &impl Abort, alloc: Global) -> Tree {
    let mut tree = Tree::new(alloc, 0, epoch()).expect(rt, "memory for a tree");
    let directory = tree.add_dir("d", epoch()).is_ok();
    let file = tree.add_file("d/f", b"hi", epoch()).is_ok();
    let link = tree.add_link("l", "d", epoch()).is_ok();
    assert!(rt; directory && file && link);
    tree
}

fn root_of(tree: &Tree) -> Descriptor
    ensures { IsOf tree.now result }
{
    Descriptor::Dir(tree.root())
}

fn read_only_root_of(tree: &Tree) -> Descriptor
    ensures { IsOf tree.now result }
{
    let mut root = tree.root();
    root.perms = FsPerms::ReadOnly;
    Descriptor::Dir(root)
}

/// The code of a refusal, if it is one.
fn code_of<T: Drop>(outcome: FilesystemResult<T>) -> Option<ErrorCode> {
    match outcome {
        Err(TrappableError::Normal(code)) => Some(code),
        Ok(_) | Err(TrappableError::Trap(_) | TrappableError::OutOfMemory) => None,
    }
}

#[test]
fn what_is_told_of_a_file(rt: HostRuntime) {
    let tree = small_tree(&rt, rt.alloc());
    let root = root_of(&tree);
    match tree.stat_at(&root, PathFlags::empty(), "d/f") {
        Ok(stat) => {
            assert_eq!(rt; stat.type_, DescriptorType::RegularFile);
            assert_eq!(rt; (stat.link_count, stat.size), (1, 2));
            assert_eq!(rt; stat.data_access_timestamp, EPOCH);
            assert_eq!(rt; stat.data_modification_timestamp, EPOCH);
            assert_eq!(rt; stat.status_change_timestamp, EPOCH);
        }
        Err(_) => assert!(rt; false, "no stat"),
    }
}

#[test]
fn what_a_link_says(rt: HostRuntime) {
    let tree = small_tree(&rt, rt.alloc());
    let root = root_of(&tree);
    match tree.readlink_at(&root, "l") {
        Ok(text) => assert_eq!(rt; text.as_str(), "d"),
        Err(_) => assert!(rt; false, "no text"),
    }
    let refused = code_of(tree.readlink_at(&root, "d/f"));
    assert_eq!(rt; refused, Some(ErrorCode::Invalid));
}

#[test]
fn a_directory_is_opened(rt: HostRuntime) {
    let mut tree = small_tree(&rt, rt.alloc());
    let root = root_of(&tree);
    let none = (OpenFlags::empty(), DescriptorFlags::empty());
    let opened = tree.open_at(
        &root,
        PathFlags::empty(),
        "d",
        none.0,
        none.1,
        epoch(),
        false,
    );
    match opened {
        Ok(at) => {
            assert!(rt;
                tree.get_type(&at)
                    .is_ok_and(|kind| kind == DescriptorType::Directory)
            );
            assert!(rt; tree.is_same_object(&at, &root).is_ok_and(|same| !same));
            assert!(rt;
                tree.metadata_hash(&at)
                    .is_ok_and(|hash| (hash.lower, hash.upper) == (1, 0))
            );
        }
        Err(_) => assert!(rt; false, "not opened"),
    }
}

#[test]
fn openings_that_are_refused(rt: HostRuntime) {
    let mut tree = small_tree(&rt, rt.alloc());
    let follow = PathFlags::SYMLINK_FOLLOW;
    let plain = PathFlags::empty();
    let none = OpenFlags::empty();
    let create = OpenFlags::CREATE;
    let new = OpenFlags::CREATE | OpenFlags::EXCLUSIVE;
    let directory = OpenFlags::DIRECTORY;
    let read = DescriptorFlags::READ;
    let write = DescriptorFlags::WRITE;
    let sync = DescriptorFlags::WRITE | DescriptorFlags::FILE_INTEGRITY_SYNC;
    let rows = [
        (follow, "l", none, read, ErrorCode::Loop),
        (plain, "l", none, read, ErrorCode::Loop),
        (plain, "l/", none, read, ErrorCode::NotDirectory),
        (plain, "d/../..", none, read, ErrorCode::NotPermitted),
        (plain, "/x", create | directory, sync, ErrorCode::Invalid),
        (plain, "/x", create, sync, ErrorCode::Unsupported),
        (plain, "x", none, write, ErrorCode::NoEntry),
        (plain, "x/", create, write, ErrorCode::IsDirectory),
        (plain, ".", new, write, ErrorCode::Exist),
        (
            plain,
            "d/f",
            new | OpenFlags::TRUNCATE,
            write,
            ErrorCode::Exist,
        ),
        (
            plain,
            "d/f",
            directory | OpenFlags::TRUNCATE,
            write,
            ErrorCode::NotDirectory,
        ),
        (plain, "d", directory, write, ErrorCode::IsDirectory),
        (
            plain,
            "d",
            OpenFlags::TRUNCATE,
            read,
            ErrorCode::IsDirectory,
        ),
    ];
    for (path_flags, path, how, flags, code) in rows {
        let root = root_of(&tree);
        let refused = code_of(tree.open_at(&root, path_flags, path, how, flags, epoch(), false));
        assert_eq!(rt; refused, Some(code), "{path}");
    }
}

#[test]
fn openings_to_read_alone(rt: HostRuntime) {
    let mut tree = small_tree(&rt, rt.alloc());
    let none = OpenFlags::empty();
    let read = DescriptorFlags::READ;
    let rows = [
        (
            "/x",
            OpenFlags::CREATE | OpenFlags::DIRECTORY,
            read,
            Some(ErrorCode::NotPermitted),
        ),
        (
            "d/f",
            OpenFlags::TRUNCATE,
            read,
            Some(ErrorCode::NotPermitted),
        ),
        (
            "d/f",
            none,
            DescriptorFlags::WRITE,
            Some(ErrorCode::NotPermitted),
        ),
        (
            "d",
            none,
            DescriptorFlags::MUTATE_DIRECTORY,
            Some(ErrorCode::NotPermitted),
        ),
        ("d/f", OpenFlags::EXCLUSIVE, read, None),
    ];
    for (path, how, flags, code) in rows {
        let root = read_only_root_of(&tree);
        let refused = code_of(tree.open_at(
            &root,
            PathFlags::empty(),
            path,
            how,
            flags,
            epoch(),
            false,
        ));
        assert_eq!(rt; refused, code, "{path}");
    }
}

#[test]
fn additions_that_are_refused(rt: HostRuntime) {
    let mut tree = small_tree(&rt, rt.alloc());
    let rows = [
        ("", ErrorCode::NoEntry),
        ("/x", ErrorCode::NotPermitted),
        ("d/f/x", ErrorCode::NotDirectory),
        ("l/x", ErrorCode::Loop),
        (".", ErrorCode::Exist),
        ("d/", ErrorCode::Exist),
        ("x/", ErrorCode::Invalid),
    ];
    for (path, code) in rows {
        assert_eq!(rt; tree.may_add(path, 0), Err(code), "{path}");
        let refused = code_of(tree.add_dir(path, epoch()));
        assert_eq!(rt; refused, Some(code), "{path}");
    }
}

#[test]
fn a_file_that_may_be_added(rt: HostRuntime) {
    let tree = small_tree(&rt, rt.alloc());
    assert_eq!(rt; tree.may_add("x", 1_048_576), Ok(()));
    let large = tree.may_add("x", 1_048_577);
    assert_eq!(rt; large, Err(ErrorCode::FileTooLarge));
    let slash = tree.may_add("x/", 1_048_577);
    assert_eq!(rt; slash, Err(ErrorCode::Invalid));
}

#[test]
fn names_are_listed_unless_a_fault_is_planned(rt: HostRuntime) {
    let mut tree = small_tree(&rt, rt.alloc());
    tree.fail_next(IoKind::BrokenPipe);
    let root = tree.root();
    let refused = code_of(tree.list(&root));
    assert_eq!(rt; refused, Some(ErrorCode::Pipe));
    assert_eq!(rt; tree.faults(), 1);
}

/// The small tree, with a new directory `e` (4), in which the file stands as `g`.
fn moved_tree(rt: &impl Abort, alloc: Global) -> Tree {
    let mut tree = small_tree(rt, alloc);
    let root = root_of(&tree);
    let created = tree.create_directory_at(&root, "e", epoch()).is_ok();
    let root = root_of(&tree);
    let moved = tree.rename_at(&root, "d/f", &root, "e/g").is_ok();
    assert!(rt; created && moved);
    tree
}

#[test]
fn a_directory_that_is_there_is_not_made(rt: HostRuntime) {
    let mut tree = moved_tree(&rt, rt.alloc());
    let root = root_of(&tree);
    let refused = code_of(tree.create_directory_at(&root, "e", epoch()));
    assert_eq!(rt; refused, Some(ErrorCode::Exist));
}

#[test]
fn a_directory_is_unlinked_by_no_call_for_files(rt: HostRuntime) {
    let mut tree = moved_tree(&rt, rt.alloc());
    let root = root_of(&tree);
    let refused = code_of(tree.unlink_file_at(&root, "e"));
    assert_eq!(rt; refused, Some(ErrorCode::IsDirectory));
}

#[test]
fn a_full_directory_is_not_removed(rt: HostRuntime) {
    let mut tree = moved_tree(&rt, rt.alloc());
    let root = root_of(&tree);
    let refused = code_of(tree.remove_directory_at(&root, "e"));
    assert_eq!(rt; refused, Some(ErrorCode::NotEmpty));
    let root = root_of(&tree);
    assert!(rt; tree.remove_directory_at(&root, "d").is_ok());
}

#[test]
fn a_name_that_was_moved_is_absent(rt: HostRuntime) {
    let tree = moved_tree(&rt, rt.alloc());
    let root = root_of(&tree);
    let refused = code_of(tree.stat_at(&root, PathFlags::empty(), "d/f"));
    assert_eq!(rt; refused, Some(ErrorCode::NoEntry));
}

#[test]
fn a_time_that_does_not_fit(rt: HostRuntime) {
    let mut tree = moved_tree(&rt, rt.alloc());
    let root = root_of(&tree);
    let late = NewTimestamp::Timestamp(Instant {
        seconds: i64::MAX,
        nanoseconds: 1_000_000_000,
    });
    let keep = NewTimestamp::NoChange;
    let refused = code_of(tree.set_times_at(&root, PathFlags::empty(), "e", late, keep, epoch()));
    assert_eq!(rt; refused, Some(ErrorCode::Overflow));
}

/// Half a second before 1970, as the Rust crate's tests have it.
#[test]
fn times_before_1970(rt: HostRuntime) {
    let mut tree = small_tree(&rt, rt.alloc());
    let root = root_of(&tree);
    let before = NewTimestamp::Timestamp(Instant {
        seconds: -1,
        nanoseconds: 500_000_000,
    });
    let keep = NewTimestamp::NoChange;
    let set = tree.set_times_at(&root, PathFlags::empty(), "d/f", before, keep, epoch());
    assert!(rt; set.is_ok());
    let root = root_of(&tree);
    match tree.stat_at(&root, PathFlags::empty(), "d/f") {
        Ok(stat) => {
            let half = Datetime {
                seconds: -1,
                nanoseconds: 500_000_000,
            };
            assert_eq!(rt; stat.data_access_timestamp, Some(half));
        }
        Err(_) => assert!(rt; false, "no stat"),
    }
}

#[test]
fn a_file_of_a_tree_is_written_and_read(rt: HostRuntime) {
    let mut tree = small_tree(&rt, rt.alloc());
    let root = root_of(&tree);
    let how = OpenFlags::empty();
    let flags = DescriptorFlags::empty();
    match tree.open_at(&root, PathFlags::empty(), "d/f", how, flags, epoch(), false) {
        Ok(Descriptor::File(file)) => {
            let wrote = tree.write_at(file.node, At::Offset(3), b"x");
            assert_eq!(rt; wrote, Ok(1));
            let mut room = [1; 8];
            let read = tree.read_at(file.node, 1, &mut room);
            assert_eq!(rt; read, Ok(3));
            assert_eq!(rt; room, [b'i', 0, b'x', 1, 1, 1, 1, 1]);
        }
        Ok(Descriptor::Dir(_)) | Err(_) => assert!(rt; false, "no file"),
    }
}

#[test]
fn one_file_in_memory_is_written_and_read(rt: HostRuntime) {
    let bytes = Vec::from_slice(rt.alloc(), b"hi").expect(&rt, "memory for two bytes");
    let mut store = MemStore {
        base: 10,
        bytes,
        faults: 0,
        fail_next: None,
    };
    let wrote = store.write_at(7, At::End, b"!");
    assert_eq!(rt; wrote, Ok(1));
    let mut room = [1; 4];
    let read = store.read_at(0, 11, &mut room);
    assert_eq!(rt; read, Ok(2));
    assert_eq!(rt; room, [b'i', b'!', 1, 1]);
    let below = store.read_at(0, 9, &mut room);
    assert_eq!(rt; below, Err(ErrorCode::Invalid));
    assert_eq!(rt; store.faults, 1);
}
