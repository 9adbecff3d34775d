//! The refusals of each call in their order: where two causes hold, the first of them is told. On
//! the small tree; in the moved one `e` (4) is full and `d` is empty.

ghost use Rattle.std.specs.Prelude.{IfSome};
ghost use Rattle.wasi_fs.specs.Trees.{IsOf};

use super::{code_of, epoch, moved_tree, read_only_root_of, root_of, small_tree};
use crate::{Descriptor, Tree};
use bitflags::Flags;
use wasi_clocks::Instant;
use wasi_fs_types::{DescriptorFlags, ErrorCode, NewTimestamp, OpenFlags, PathFlags};

const LATE: NewTimestamp = NewTimestamp::Timestamp(Instant {
    seconds: i64::MAX,
    nanoseconds: 1_000_000_000,
});

/// The file `d/f`, opened below a directory.
fn file_below(tree: &mut Tree, from: &Descriptor, flags: DescriptorFlags) -> Option<Descriptor>
    requires { IsOf tree.old from.now }
    ensures { IfSome result (IsOf tree.new) }
{
    match tree.open_at(
        from,
        PathFlags::empty(),
        "d/f",
        OpenFlags::empty(),
        flags,
        epoch(),
        false,
    ) {
        Ok(file) => Some(file),
        Err(_) => None,
    }
}

fn file_of(tree: &mut Tree) -> Option<Descriptor>
    ensures { IfSome result (IsOf tree.new) }
{
    let root = root_of(tree);
    file_below(tree, &root, DescriptorFlags::WRITE)
}

fn file_to_read_of(tree: &mut Tree) -> Option<Descriptor>
    ensures { IfSome result (IsOf tree.new) }
{
    let root = root_of(tree);
    file_below(tree, &root, DescriptorFlags::READ)
}

fn read_only_file_of(tree: &mut Tree) -> Option<Descriptor>
    ensures { IfSome result (IsOf tree.new) }
{
    let root = read_only_root_of(tree);
    file_below(tree, &root, DescriptorFlags::READ)
}

#[test]
fn a_size_of_a_directory(rt: HostRuntime) {
    let mut tree = small_tree(&rt, rt.alloc());
    let root = read_only_root_of(&tree);
    let refused = code_of(tree.set_size(&root, 1_048_577));
    assert_eq!(rt; refused, Some(ErrorCode::BadDescriptor));
}

#[test]
fn a_size_of_a_read_only_file(rt: HostRuntime) {
    let mut tree = small_tree(&rt, rt.alloc());
    if let Some(file) = read_only_file_of(&mut tree) {
        let refused = code_of(tree.set_size(&file, 1_048_577));
        assert_eq!(rt; refused, Some(ErrorCode::NotPermitted));
    }
}

#[test]
fn a_size_of_a_file_to_read(rt: HostRuntime) {
    let mut tree = small_tree(&rt, rt.alloc());
    if let Some(file) = file_to_read_of(&mut tree) {
        let refused = code_of(tree.set_size(&file, 1_048_577));
        assert_eq!(rt; refused, Some(ErrorCode::NotPermitted));
    }
}

#[test]
fn a_size_that_is_too_large(rt: HostRuntime) {
    let mut tree = small_tree(&rt, rt.alloc());
    if let Some(file) = file_of(&mut tree) {
        let refused = code_of(tree.set_size(&file, 1_048_577));
        assert_eq!(rt; refused, Some(ErrorCode::FileTooLarge));
    }
}

#[test]
fn times_to_read_alone(rt: HostRuntime) {
    let mut tree = small_tree(&rt, rt.alloc());
    let root = read_only_root_of(&tree);
    let keep = NewTimestamp::NoChange;
    let refused = code_of(tree.set_times(&root, keep, LATE, epoch()));
    assert_eq!(rt; refused, Some(ErrorCode::Overflow));
    let refused = code_of(tree.set_times(&root, keep, keep, epoch()));
    assert_eq!(rt; refused, Some(ErrorCode::NotPermitted));
    let refused = code_of(tree.set_times_at(&root, PathFlags::empty(), "x", keep, keep, epoch()));
    assert_eq!(rt; refused, Some(ErrorCode::NotPermitted));
}

#[test]
fn times_below_a_file(rt: HostRuntime) {
    let mut tree = small_tree(&rt, rt.alloc());
    let keep = NewTimestamp::NoChange;
    if let Some(file) = read_only_file_of(&mut tree) {
        let refused = code_of(tree.set_times_at(
            &file,
            PathFlags::empty(),
            "x",
            LATE,
            keep,
            epoch(),
        ));
        assert_eq!(rt; refused, Some(ErrorCode::Overflow));
        let refused = code_of(tree.set_times_at(
            &file,
            PathFlags::empty(),
            "x",
            keep,
            keep,
            epoch(),
        ));
        assert_eq!(rt; refused, Some(ErrorCode::NotDirectory));
    }
}

#[test]
fn times_of_what_is_not_there(rt: HostRuntime) {
    let mut tree = small_tree(&rt, rt.alloc());
    let keep = NewTimestamp::NoChange;
    let root = root_of(&tree);
    let refused = code_of(tree.set_times_at(&root, PathFlags::empty(), "x", keep, keep, epoch()));
    assert_eq!(rt; refused, Some(ErrorCode::NoEntry));
    let follow = PathFlags::SYMLINK_FOLLOW;
    let refused = code_of(tree.set_times_at(&root, follow, "l", keep, keep, epoch()));
    assert_eq!(rt; refused, Some(ErrorCode::Loop));
}

#[test]
fn nothing_is_made_below_a_file(rt: HostRuntime) {
    let mut tree = small_tree(&rt, rt.alloc());
    if let Some(file) = read_only_file_of(&mut tree) {
        let refused = code_of(tree.create_directory_at(&file, "/x", epoch()));
        assert_eq!(rt; refused, Some(ErrorCode::NotDirectory));
        let refused = code_of(tree.symlink_at(&file, "/t", "/x", epoch()));
        assert_eq!(rt; refused, Some(ErrorCode::NotDirectory));
    }
}

#[test]
fn nothing_is_taken_below_a_file(rt: HostRuntime) {
    let mut tree = small_tree(&rt, rt.alloc());
    if let Some(file) = read_only_file_of(&mut tree) {
        let refused = code_of(tree.unlink_file_at(&file, "/x"));
        assert_eq!(rt; refused, Some(ErrorCode::NotDirectory));
        let refused = code_of(tree.remove_directory_at(&file, "/x"));
        assert_eq!(rt; refused, Some(ErrorCode::NotDirectory));
        let refused = code_of(tree.readlink_at(&file, "/x"));
        assert_eq!(rt; refused, Some(ErrorCode::NotDirectory));
    }
}

#[test]
fn a_file_on_one_side(rt: HostRuntime) {
    let mut tree = small_tree(&rt, rt.alloc());
    if let Some(file) = file_of(&mut tree) {
        let root = read_only_root_of(&tree);
        let refused = code_of(tree.rename_at(&root, "/x", &file, "y"));
        assert_eq!(rt; refused, Some(ErrorCode::NotDirectory));
        let refused = code_of(tree.link_at(&root, PathFlags::empty(), "/x", &file, "y"));
        assert_eq!(rt; refused, Some(ErrorCode::NotDirectory));
    }
}

#[test]
fn nothing_is_made_to_read_alone(rt: HostRuntime) {
    let mut tree = small_tree(&rt, rt.alloc());
    let root = read_only_root_of(&tree);
    let refused = code_of(tree.create_directory_at(&root, "d", epoch()));
    assert_eq!(rt; refused, Some(ErrorCode::NotPermitted));
    let refused = code_of(tree.symlink_at(&root, "t", "d", epoch()));
    assert_eq!(rt; refused, Some(ErrorCode::NotPermitted));
    let refused = code_of(tree.link_at(&root, PathFlags::empty(), "x", &root, "d"));
    assert_eq!(rt; refused, Some(ErrorCode::NotPermitted));
}

#[test]
fn nothing_is_taken_to_read_alone(rt: HostRuntime) {
    let mut tree = small_tree(&rt, rt.alloc());
    let root = read_only_root_of(&tree);
    let refused = code_of(tree.unlink_file_at(&root, "d"));
    assert_eq!(rt; refused, Some(ErrorCode::NotPermitted));
    let refused = code_of(tree.remove_directory_at(&root, "x"));
    assert_eq!(rt; refused, Some(ErrorCode::NotPermitted));
    let refused = code_of(tree.rename_at(&root, "x", &root, "d"));
    assert_eq!(rt; refused, Some(ErrorCode::NotPermitted));
}

#[test]
fn directories_that_are_not_made(rt: HostRuntime) {
    let mut tree = small_tree(&rt, rt.alloc());
    let rows = [
        ("", ErrorCode::NoEntry),
        ("/d", ErrorCode::NotPermitted),
        ("x/d", ErrorCode::NoEntry),
        ("d/f/", ErrorCode::NotDirectory),
        ("d", ErrorCode::Exist),
        (".", ErrorCode::Exist),
    ];
    for (path, code) in rows {
        let root = root_of(&tree);
        let refused = code_of(tree.create_directory_at(&root, path, epoch()));
        assert_eq!(rt; refused, Some(code), "{path}");
    }
}

#[test]
fn links_that_are_not_made(rt: HostRuntime) {
    let mut tree = small_tree(&rt, rt.alloc());
    let rows = [
        ("/t", "d", ErrorCode::NotPermitted),
        ("/t", "x/y", ErrorCode::NotPermitted),
        ("t", "x/y", ErrorCode::NoEntry),
        ("t", "d", ErrorCode::Exist),
        ("", ".", ErrorCode::Exist),
    ];
    for (text, path, code) in rows {
        let root = root_of(&tree);
        let refused = code_of(tree.symlink_at(&root, text, path, epoch()));
        assert_eq!(rt; refused, Some(code), "{path}");
    }
}

#[test]
fn names_that_are_not_added(rt: HostRuntime) {
    let mut tree = small_tree(&rt, rt.alloc());
    let plain = PathFlags::empty();
    let rows = [
        (PathFlags::SYMLINK_FOLLOW, "x", "y", ErrorCode::Invalid),
        (plain, "x", "/y", ErrorCode::NoEntry),
        (plain, "d/f", "l/y", ErrorCode::Loop),
        (plain, "d", "l", ErrorCode::NotPermitted),
        (plain, "d/f", "l", ErrorCode::Exist),
        (plain, "d/f", ".", ErrorCode::Exist),
    ];
    for (flags, path, to_path, code) in rows {
        let root = root_of(&tree);
        let refused = code_of(tree.link_at(&root, flags, path, &root, to_path));
        assert_eq!(rt; refused, Some(code), "{path}");
    }
}

#[test]
fn texts_that_are_not_read(rt: HostRuntime) {
    let tree = small_tree(&rt, rt.alloc());
    let rows = [
        ("x", ErrorCode::NoEntry),
        ("d/f/", ErrorCode::NotDirectory),
        ("l/", ErrorCode::NotDirectory),
        ("d", ErrorCode::Invalid),
        (".", ErrorCode::Invalid),
    ];
    for (path, code) in rows {
        let root = root_of(&tree);
        let refused = code_of(tree.readlink_at(&root, path));
        assert_eq!(rt; refused, Some(code), "{path}");
    }
}

#[test]
fn directories_that_are_not_removed(rt: HostRuntime) {
    let mut tree = small_tree(&rt, rt.alloc());
    let rows = [
        (".", ErrorCode::Invalid),
        ("d/..", ErrorCode::Invalid),
        ("x", ErrorCode::NoEntry),
        ("l", ErrorCode::NotDirectory),
        ("d/f", ErrorCode::NotDirectory),
        ("d", ErrorCode::NotEmpty),
    ];
    for (path, code) in rows {
        let root = root_of(&tree);
        let refused = code_of(tree.remove_directory_at(&root, path));
        assert_eq!(rt; refused, Some(code), "{path}");
    }
}

#[test]
fn names_that_are_not_taken(rt: HostRuntime) {
    let mut tree = small_tree(&rt, rt.alloc());
    let rows = [
        ("x", ErrorCode::NoEntry),
        ("d/f/", ErrorCode::NotDirectory),
        ("d", ErrorCode::IsDirectory),
        (".", ErrorCode::IsDirectory),
    ];
    for (path, code) in rows {
        let root = root_of(&tree);
        let refused = code_of(tree.unlink_file_at(&root, path));
        assert_eq!(rt; refused, Some(code), "{path}");
    }
}

#[test]
fn names_that_are_not_moved(rt: HostRuntime) {
    let mut tree = moved_tree(&rt, rt.alloc());
    let rows = [
        ("x", "/y", Some(ErrorCode::NoEntry)),
        (".", "/y", Some(ErrorCode::NotPermitted)),
        (".", ".", Some(ErrorCode::Invalid)),
        ("l", ".", Some(ErrorCode::Invalid)),
        ("d", "d", None),
        ("e", "e/g", Some(ErrorCode::Invalid)),
        ("d", "d/x", Some(ErrorCode::Invalid)),
        ("l", "e", Some(ErrorCode::IsDirectory)),
        ("e/g", "d", Some(ErrorCode::IsDirectory)),
        ("d", "e", Some(ErrorCode::NotEmpty)),
        ("d", "l", Some(ErrorCode::NotDirectory)),
    ];
    for (path, to_path, code) in rows {
        let root = root_of(&tree);
        let refused = code_of(tree.rename_at(&root, path, &root, to_path));
        assert_eq!(rt; refused, code, "{path}");
    }
}

/// A directory, opened and then removed.
fn removed(tree: &mut Tree, path: &str) -> Option<Descriptor>
    ensures { IfSome result (IsOf tree.new) }
{
    let root = root_of(tree);
    let open = DescriptorFlags::MUTATE_DIRECTORY;
    match tree.open_at(
        &root,
        PathFlags::empty(),
        path,
        OpenFlags::empty(),
        open,
        epoch(),
        false,
    ) {
        Ok(directory) => {
            let root = root_of(tree);
            let removed = tree.remove_directory_at(&root, path).is_ok();
            if removed { Some(directory) } else { None }
        }
        Err(_) => None,
    }
}

#[test]
fn a_removed_directory_takes_no_entry(rt: HostRuntime) {
    let mut tree = moved_tree(&rt, rt.alloc());
    match removed(&mut tree, "d") {
        Some(directory) => {
            let refused = code_of(tree.create_directory_at(&directory, "x", epoch()));
            assert_eq!(rt; refused, Some(ErrorCode::NoEntry));
            let refused = code_of(tree.create_directory_at(&directory, ".", epoch()));
            assert_eq!(rt; refused, Some(ErrorCode::Exist));
        }
        None => assert!(rt; false, "not removed"),
    }
}

#[test]
fn a_removed_directory_is_told(rt: HostRuntime) {
    let mut tree = moved_tree(&rt, rt.alloc());
    match removed(&mut tree, "d") {
        Some(directory) => match tree.stat(&directory) {
            Ok(stat) => assert_eq!(rt; stat.link_count, 0),
            Err(_) => assert!(rt; false, "no stat"),
        },
        None => assert!(rt; false, "not removed"),
    }
}

/// What no entry names lies below nothing, also where it once stood below the directory that moves.
#[test]
fn a_directory_moves_into_a_removed_one(rt: HostRuntime) {
    let mut tree = small_tree(&rt, rt.alloc());
    let root = root_of(&tree);
    assert!(rt; tree.create_directory_at(&root, "d/b", epoch()).is_ok());
    match removed(&mut tree, "d/b") {
        Some(directory) => {
            let root = root_of(&tree);
            let refused = code_of(tree.rename_at(&root, "d", &directory, "c"));
            assert_eq!(rt; refused, Some(ErrorCode::NoEntry));
        }
        None => assert!(rt; false, "not removed"),
    }
}
