//! Calls on one descriptor: a directory, a file, the path of a link, a removed directory, and
//! descriptors to read alone.

use super::{asked, open_below_root, open_to, owned, read_only_root_of, root_of, says, small_tree};
use crate::DescriptorCall;
use bitflags::Flags;
use std::alloc::Global;
use std::process::Abort;
use std::test::Fail;
use wasi_clocks::Instant;
use wasi_fs_types::{Advice, DescriptorFlags, NewTimestamp, OpenFlags, PathFlags};

const KEEP: NewTimestamp = NewTimestamp::NoChange;

const LATE: NewTimestamp = NewTimestamp::Timestamp(Instant {
    seconds: i64::MAX,
    nanoseconds: 1_000_000_000,
});

const ADVICE: DescriptorCall = DescriptorCall::Advise {
    offset: 0,
    length: 1,
    advice: Advice::WillNeed,
};

fn stat_at(rt: &impl Abort, alloc: Global, flags: PathFlags, path: &str) -> DescriptorCall {
    DescriptorCall::StatAt {
        flags,
        path: owned(rt, alloc, path),
    }
}

fn create_directory_at(rt: &impl Abort, alloc: Global, path: &str) -> DescriptorCall {
    DescriptorCall::CreateDirectoryAt {
        path: owned(rt, alloc, path),
    }
}

fn remove_directory_at(rt: &impl Abort, alloc: Global, path: &str) -> DescriptorCall {
    DescriptorCall::RemoveDirectoryAt {
        path: owned(rt, alloc, path),
    }
}

fn unlink_file_at(rt: &impl Abort, alloc: Global, path: &str) -> DescriptorCall {
    DescriptorCall::UnlinkFileAt {
        path: owned(rt, alloc, path),
    }
}

fn readlink_at(rt: &impl Abort, alloc: Global, path: &str) -> DescriptorCall {
    DescriptorCall::ReadlinkAt {
        path: owned(rt, alloc, path),
    }
}

fn symlink_at(rt: &impl Abort, alloc: Global, path: &str) -> DescriptorCall {
    DescriptorCall::SymlinkAt {
        text: owned(rt, alloc, "d"),
        path: owned(rt, alloc, path),
    }
}

fn metadata_hash_at(
    rt: &impl Abort,
    alloc: Global,
    flags: PathFlags,
    path: &str,
) -> DescriptorCall {
    DescriptorCall::MetadataHashAt {
        flags,
        path: owned(rt, alloc, path),
    }
}

fn set_times_at(
    rt: &impl Abort,
    alloc: Global,
    path: &str,
    access: NewTimestamp,
) -> DescriptorCall {
    DescriptorCall::SetTimesAt {
        flags: PathFlags::empty(),
        path: owned(rt, alloc, path),
        access,
        modified: KEEP,
    }
}

fn open_at(rt: &impl Abort, alloc: Global, path: &str) -> DescriptorCall {
    open_to(
        rt,
        alloc,
        path,
        OpenFlags::empty(),
        DescriptorFlags::empty(),
    )
}

/// The calls that change something below a directory, each with the same path.
fn changes_at(rt: &impl Abort, alloc: Global, path: &str) -> [DescriptorCall; 6] {
    [
        set_times_at(rt, alloc, path, KEEP),
        create_directory_at(rt, alloc, path),
        open_to(rt, alloc, path, OpenFlags::CREATE, DescriptorFlags::WRITE),
        remove_directory_at(rt, alloc, path),
        symlink_at(rt, alloc, path),
        unlink_file_at(rt, alloc, path),
    ]
}

/// The calls that look below a directory.
fn looks_at(rt: &impl Abort, alloc: Global, path: &str) -> [DescriptorCall; 4] {
    [
        stat_at(rt, alloc, PathFlags::empty(), path),
        open_at(rt, alloc, path),
        readlink_at(rt, alloc, path),
        metadata_hash_at(rt, alloc, PathFlags::empty(), path),
    ]
}

#[test]
fn a_directory_is_asked(rt: HostRuntime) -> Result<(), Fail> {
    let alloc = rt.alloc();
    let mut tree = small_tree(&rt, alloc);
    let rows = [
        (DescriptorCall::GetFlags, "flags 33"),
        (DescriptorCall::GetType, "type Directory"),
        (ADVICE, "err bad-descriptor"),
        (DescriptorCall::SetSize { size: 1 }, "err bad-descriptor"),
        (DescriptorCall::Sync, "ok"),
        (DescriptorCall::SyncData, "ok"),
        (DescriptorCall::Stat, "stat Directory 1 0 0:0 0:0 0:0"),
        (DescriptorCall::MetadataHash, "hash 0"),
    ];
    for (call, want) in rows {
        let root = root_of(&tree);
        says(&rt, alloc, &mut tree, &root, &call, want)?;
    }
    Ok(())
}

#[test]
fn a_file_is_asked(rt: HostRuntime) -> Result<(), Fail> {
    let alloc = rt.alloc();
    let mut tree = small_tree(&rt, alloc);
    let access = NewTimestamp::Timestamp(Instant {
        seconds: -1,
        nanoseconds: 2,
    });
    let rows = [
        (DescriptorCall::GetFlags, "flags 3"),
        (DescriptorCall::GetType, "type RegularFile"),
        (ADVICE, "ok"),
        (DescriptorCall::SetSize { size: 1 }, "ok"),
        (
            DescriptorCall::SetTimes {
                access,
                modified: NewTimestamp::Now,
            },
            "ok",
        ),
        (DescriptorCall::Sync, "ok"),
        (DescriptorCall::SyncData, "ok"),
        (DescriptorCall::Stat, "stat RegularFile 1 1 -1:2 0:0 0:0"),
        (DescriptorCall::MetadataHash, "hash 2"),
    ];
    for (call, want) in rows {
        let file = open_below_root(&rt, alloc, &mut tree, "d/f");
        says(&rt, alloc, &mut tree, &file, &call, want)?;
    }
    Ok(())
}

#[test]
fn a_path_from_a_file(rt: HostRuntime) -> Result<(), Fail> {
    let alloc = rt.alloc();
    let mut tree = small_tree(&rt, alloc);
    for call in changes_at(&rt, alloc, "x") {
        let file = open_below_root(&rt, alloc, &mut tree, "d/f");
        says(&rt, alloc, &mut tree, &file, &call, "err not-directory")?;
    }
    for call in looks_at(&rt, alloc, "x") {
        let file = open_below_root(&rt, alloc, &mut tree, "d/f");
        says(&rt, alloc, &mut tree, &file, &call, "err not-directory")?;
    }
    Ok(())
}

#[test]
fn the_path_of_a_link(rt: HostRuntime) -> Result<(), Fail> {
    let alloc = rt.alloc();
    let mut tree = small_tree(&rt, alloc);
    let follow = PathFlags::SYMLINK_FOLLOW;
    let plain = PathFlags::empty();
    let rows = [
        (
            stat_at(&rt, alloc, plain, "l"),
            "stat SymbolicLink 1 1 0:0 0:0 0:0",
        ),
        (stat_at(&rt, alloc, follow, "l"), "err loop"),
        (open_at(&rt, alloc, "l"), "err loop"),
        (readlink_at(&rt, alloc, "l"), "text d"),
        (readlink_at(&rt, alloc, "d"), "err invalid"),
        (metadata_hash_at(&rt, alloc, plain, "l"), "hash 3"),
        (metadata_hash_at(&rt, alloc, follow, "l"), "err loop"),
        (create_directory_at(&rt, alloc, "l"), "err exist"),
        (symlink_at(&rt, alloc, "l"), "err exist"),
        (set_times_at(&rt, alloc, "l", KEEP), "ok"),
        (remove_directory_at(&rt, alloc, "l"), "err not-directory"),
        (unlink_file_at(&rt, alloc, "l"), "ok"),
        (readlink_at(&rt, alloc, "l"), "err no-entry"),
    ];
    for (call, want) in rows {
        let root = root_of(&tree);
        says(&rt, alloc, &mut tree, &root, &call, want)?;
    }
    Ok(())
}

#[test]
fn a_removed_directory(rt: HostRuntime) -> Result<(), Fail> {
    let alloc = rt.alloc();
    let mut tree = small_tree(&rt, alloc);
    let root = root_of(&tree);
    says(
        &rt,
        alloc,
        &mut tree,
        &root,
        &create_directory_at(&rt, alloc, "e"),
        "ok",
    )?;
    let removed = open_below_root(&rt, alloc, &mut tree, "e");
    says(
        &rt,
        alloc,
        &mut tree,
        &root,
        &remove_directory_at(&rt, alloc, "e"),
        "ok",
    )?;
    says(
        &rt,
        alloc,
        &mut tree,
        &removed,
        &DescriptorCall::Stat,
        "stat Directory 0 0 0:0 0:0 0:0",
    )?;
    says(
        &rt,
        alloc,
        &mut tree,
        &removed,
        &DescriptorCall::GetFlags,
        "flags 33",
    )?;
    says(
        &rt,
        alloc,
        &mut tree,
        &removed,
        &open_at(&rt, alloc, "."),
        "directory 4",
    )?;
    says(
        &rt,
        alloc,
        &mut tree,
        &removed,
        &create_directory_at(&rt, alloc, "x"),
        "err no-entry",
    )?;
    says(
        &rt,
        alloc,
        &mut tree,
        &removed,
        &symlink_at(&rt, alloc, "x"),
        "err no-entry",
    )?;
    let new = open_to(&rt, alloc, "x", OpenFlags::CREATE, DescriptorFlags::WRITE);
    says(&rt, alloc, &mut tree, &removed, &new, "err no-entry")?;
    Ok(())
}

#[test]
fn a_directory_to_read_alone(rt: HostRuntime) -> Result<(), Fail> {
    let alloc = rt.alloc();
    let mut tree = small_tree(&rt, alloc);
    for call in changes_at(&rt, alloc, "..") {
        let root = read_only_root_of(&tree);
        says(&rt, alloc, &mut tree, &root, &call, "err not-permitted")?;
    }
    let rows = [
        (DescriptorCall::GetFlags, "flags 1"),
        (set_times_at(&rt, alloc, "x", LATE), "err overflow"),
        (
            DescriptorCall::SetTimes {
                access: KEEP,
                modified: KEEP,
            },
            "err not-permitted",
        ),
        (open_at(&rt, alloc, "d"), "directory 1"),
        (open_at(&rt, alloc, "d/f"), "file 2"),
        (readlink_at(&rt, alloc, "l"), "text d"),
    ];
    for (call, want) in rows {
        let root = read_only_root_of(&tree);
        says(&rt, alloc, &mut tree, &root, &call, want)?;
    }
    Ok(())
}

#[test]
fn a_call_with_no_answer_changes_nothing(rt: HostRuntime) -> Result<(), Fail> {
    let alloc = rt.alloc();
    let mut tree = small_tree(&rt, alloc);
    let root = root_of(&tree);
    let refused = asked(&rt, &mut tree, &root, &create_directory_at(&rt, alloc, "d"));
    assert!(rt; refused.is_refusal());
    let told = asked(&rt, &mut tree, &root, &DescriptorCall::Stat);
    assert!(rt; !told.is_refusal());
    Ok(())
}

/// A whole story of one tree, each answer after those before it.
#[test]
fn a_tree_is_changed(rt: HostRuntime) -> Result<(), Fail> {
    let alloc = rt.alloc();
    let mut tree = small_tree(&rt, alloc);
    let plain = PathFlags::empty();
    let rows = [
        (
            stat_at(&rt, alloc, plain, "d/f"),
            "stat RegularFile 1 2 0:0 0:0 0:0",
        ),
        (open_at(&rt, alloc, "d/../.."), "err not-permitted"),
        (open_at(&rt, alloc, "d"), "directory 1"),
        (create_directory_at(&rt, alloc, "e"), "ok"),
        (create_directory_at(&rt, alloc, "e"), "err exist"),
        (unlink_file_at(&rt, alloc, "d/f"), "ok"),
        (unlink_file_at(&rt, alloc, "e"), "err is-directory"),
        (stat_at(&rt, alloc, plain, "d/f"), "err no-entry"),
        (set_times_at(&rt, alloc, "e", LATE), "err overflow"),
        (remove_directory_at(&rt, alloc, "d"), "ok"),
    ];
    for (call, want) in rows {
        let root = root_of(&tree);
        says(&rt, alloc, &mut tree, &root, &call, want)?;
    }
    Ok(())
}
