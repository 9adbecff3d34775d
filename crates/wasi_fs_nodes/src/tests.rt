//! One small tree, by calls: the root 0 with the directory `a` (1), the file `f` (2) and the link
//! `l` (3); in `a` the file `g` (4).

mod memory;

use crate::{At, Kind, Nodes, StoreError};
use std::alloc::Global;
use std::process::Abort;
use std::test::Fail;
use wasi_base::IoKind;
use wasi_clocks::Datetime;
use wasi_fs_types::ErrorCode;

const NOW: Datetime = Datetime {
    seconds: 5,
    nanoseconds: 6,
};

const LATER: Datetime = Datetime {
    seconds: 7,
    nanoseconds: 8,
};

fn add_directory(nodes: &mut Nodes, dir: u64, name: &str) -> Option<u64> {
    match nodes.kind(dir) {
        Some(Kind::Directory) => nodes.make_directory(dir, name, Some(NOW)).ok(),
        _ => None,
    }
}

fn add_file(nodes: &mut Nodes, dir: u64, name: &str, bytes: &[u8]) -> Result<u64, StoreError> {
    match nodes.kind(dir) {
        Some(Kind::Directory) => nodes.make_file(dir, name, bytes, Some(NOW)),
        _ => Err(StoreError::Code(ErrorCode::NotDirectory)),
    }
}

fn add_link(nodes: &mut Nodes, dir: u64, name: &str, text: &str) -> Option<u64> {
    match nodes.kind(dir) {
        Some(Kind::Directory) => nodes.make_link(dir, name, text, Some(NOW)).ok(),
        _ => None,
    }
}

fn rename(
    nodes: &mut Nodes,
    from: u64,
    name: &str,
    to: u64,
    to_name: &str,
) -> Result<(), StoreError> {
    match nodes.kind(to) {
        Some(Kind::Directory) => nodes.rename(from, name, to, to_name),
        _ => Err(StoreError::Code(ErrorCode::NotDirectory)),
    }
}

fn write(nodes: &mut Nodes, file: u64, at: At, bytes: &[u8]) -> Result<(), StoreError> {
    match nodes.kind(file) {
        Some(Kind::File) => nodes.write(file, at, bytes),
        _ => Err(StoreError::Code(ErrorCode::BadDescriptor)),
    }
}

fn set_size(nodes: &mut Nodes, file: u64, size: u64) -> Result<(), StoreError> {
    match nodes.kind(file) {
        Some(Kind::File) => nodes.set_size(file, size),
        _ => Err(StoreError::Code(ErrorCode::BadDescriptor)),
    }
}

fn is_read(nodes: &Nodes, file: u64, offset: u64, bytes: &[u8]) -> bool {
    let mut buf = [0; 16];
    let n = nodes.read(file, offset, &mut buf);
    &buf[..n] == bytes
}

/// The small tree.
fn small(rt: &impl Abort, alloc: Global) -> Option<Nodes> {
    let mut nodes = Nodes::new(alloc, Some(NOW)).ok()?;
    assert_eq!(rt; add_directory(&mut nodes, 0, "a"), Some(1));
    assert_eq!(rt; add_file(&mut nodes, 0, "f", b"hello").ok(), Some(2));
    assert_eq!(rt; add_link(&mut nodes, 0, "l", "a/g"), Some(3));
    assert_eq!(rt; add_file(&mut nodes, 1, "g", b"").ok(), Some(4));
    Some(nodes)
}

fn refused(code: ErrorCode) -> Result<(), StoreError> {
    Err(StoreError::Code(code))
}

fn says(nodes: &Nodes, node: u64, kind: Kind, links: u64, size: u64) -> bool {
    match nodes.stat(node) {
        Some(stat) => stat.kind == kind && stat.links == links && stat.size == size,
        None => false,
    }
}

#[test]
fn nodes_are_told(rt: HostRuntime) -> Result<(), Fail> {
    let Some(nodes) = small(&rt, rt.alloc()) else {
        return Ok(());
    };
    assert!(rt; says(&nodes, 0, Kind::Directory, 1, 0));
    assert!(rt; says(&nodes, 1, Kind::Directory, 1, 0));
    assert!(rt; says(&nodes, 2, Kind::File, 1, 5));
    assert!(rt; says(&nodes, 3, Kind::Link, 1, 3));
    assert!(rt; nodes.stat(5).is_none());
    assert!(rt; nodes.link_text(3) == Some("a/g"));
    assert!(rt; nodes.link_text(2).is_none());
    Ok(())
}

#[test]
fn entries_are_found(rt: HostRuntime) -> Result<(), Fail> {
    let Some(nodes) = small(&rt, rt.alloc()) else {
        return Ok(());
    };
    assert_eq!(rt; nodes.entry(0, "f"), Some(2));
    assert_eq!(rt; nodes.entry(0, "F"), None);
    assert_eq!(rt; nodes.entry(2, "f"), None);
    assert!(rt; nodes.is_below(0, 1) && nodes.is_below(1, 1) && !nodes.is_below(1, 0));
    let mut names = 0;
    for (place, entry) in nodes.list(0)?.iter().enumerate() {
        let name = if place == 0 {
            "a"
        } else if place == 1 {
            "f"
        } else {
            "l"
        };
        assert!(rt; entry.name.as_str() == name && entry.node == place as u64 + 1);
        names = place + 1;
    }
    assert_eq!(rt; names, 3);
    Ok(())
}

#[test]
fn a_name_is_taken_once(rt: HostRuntime) -> Result<(), Fail> {
    let Some(mut nodes) = small(&rt, rt.alloc()) else {
        return Ok(());
    };
    assert!(rt; add_file(&mut nodes, 0, "a", b"") == Err(StoreError::Code(ErrorCode::Exist)));
    assert!(rt; nodes.unlink(0, "a") == Err(ErrorCode::IsDirectory));
    assert!(rt; nodes.unlink(0, "x") == Err(ErrorCode::NoEntry));
    assert!(rt; nodes.unlink(0, "f").is_ok());
    assert!(rt; says(&nodes, 2, Kind::File, 0, 5));
    assert_eq!(rt; nodes.bytes(), 5);
    Ok(())
}

#[test]
fn a_removed_directory_takes_no_entry(rt: HostRuntime) -> Result<(), Fail> {
    let Some(mut nodes) = small(&rt, rt.alloc()) else {
        return Ok(());
    };
    assert!(rt; nodes.remove_directory(0, "a") == Err(ErrorCode::NotEmpty));
    assert!(rt; nodes.remove_directory(0, "f") == Err(ErrorCode::NotDirectory));
    assert!(rt; nodes.unlink(1, "g").is_ok());
    assert!(rt; nodes.remove_directory(0, "a").is_ok());
    assert!(rt; add_file(&mut nodes, 1, "h", b"") == Err(StoreError::Code(ErrorCode::NoEntry)));
    Ok(())
}

/// What no entry names lies below nothing, also where it once stood below the directory that moves.
#[test]
fn a_directory_moves_into_a_removed_one(rt: HostRuntime) -> Result<(), Fail> {
    let Some(mut nodes) = small(&rt, rt.alloc()) else {
        return Ok(());
    };
    assert_eq!(rt; add_directory(&mut nodes, 1, "b"), Some(5));
    assert!(rt; rename(&mut nodes, 0, "a", 5, "c") == refused(ErrorCode::Invalid));
    assert!(rt; nodes.remove_directory(1, "b").is_ok());
    assert!(rt; rename(&mut nodes, 0, "a", 5, "c") == refused(ErrorCode::NoEntry));
    Ok(())
}

#[test]
fn directories_move(rt: HostRuntime) -> Result<(), Fail> {
    let Some(mut nodes) = small(&rt, rt.alloc()) else {
        return Ok(());
    };
    assert_eq!(rt; add_directory(&mut nodes, 0, "b"), Some(5));
    assert!(rt; rename(&mut nodes, 0, "a", 1, "c") == refused(ErrorCode::Invalid));
    assert!(rt; rename(&mut nodes, 0, "b", 0, "a") == refused(ErrorCode::NotEmpty));
    assert!(rt; rename(&mut nodes, 0, "a", 5, "c").is_ok());
    assert_eq!(rt;
        (nodes.entry(0, "a"), nodes.entry(5, "c"), nodes.parent(1)),
        (None, Some(1), 5)
    );
    assert!(rt; nodes.is_below(5, 1));
    Ok(())
}

#[test]
fn a_node_takes_the_place_of_another(rt: HostRuntime) -> Result<(), Fail> {
    let Some(mut nodes) = small(&rt, rt.alloc()) else {
        return Ok(());
    };
    assert!(rt; rename(&mut nodes, 0, "f", 0, "a") == refused(ErrorCode::IsDirectory));
    assert!(rt; rename(&mut nodes, 0, "a", 0, "f") == refused(ErrorCode::NotDirectory));
    assert!(rt; rename(&mut nodes, 0, "f", 1, "g").is_ok());
    assert!(rt; says(&nodes, 4, Kind::File, 0, 0));
    assert_eq!(rt; (nodes.entry(0, "f"), nodes.entry(1, "g")), (None, Some(2)));
    Ok(())
}

#[test]
fn bytes_are_written_and_read(rt: HostRuntime) -> Result<(), Fail> {
    let Some(mut nodes) = small(&rt, rt.alloc()) else {
        return Ok(());
    };
    assert!(rt; write(&mut nodes, 2, At::Offset(7), b"x").is_ok());
    assert!(rt; is_read(&nodes, 2, 3, b"lo\0\0x"));
    assert!(rt; write(&mut nodes, 2, At::End, b"y").is_ok());
    assert!(rt; set_size(&mut nodes, 2, 4).is_ok());
    assert!(rt; is_read(&nodes, 2, 0, b"hell"));
    assert_eq!(rt; nodes.bytes(), 4);
    Ok(())
}

#[test]
fn times_are_set(rt: HostRuntime) -> Result<(), Fail> {
    let Some(mut nodes) = small(&rt, rt.alloc()) else {
        return Ok(());
    };
    if nodes.len() < 3 {
        return Ok(());
    }
    nodes.set_times(2, None, Some(LATER));
    match nodes.stat(2) {
        Some(stat) => {
            assert_eq!(rt; stat.times.access, Some(NOW));
            assert_eq!(rt; stat.times.modification, Some(LATER));
            assert_eq!(rt; stat.times.status_change, Some(NOW));
        }
        None => assert!(rt; false),
    }
    Ok(())
}

/// Files of 1048576 bytes, as many as the tree holds.
fn filled(nodes: &mut Nodes, names: &[u8]) -> u64 {
    let mut files = 0;
    for name in names {
        let name = [*name];
        let Ok(name) = std::str::from_utf8(&name) else {
            return files;
        };
        let Ok(file) = add_file(nodes, 0, name, b"") else {
            return files;
        };
        if set_size(nodes, file, 1_048_576).is_err() {
            return files;
        }
        files = u64::saturating_add(files, 1);
    }
    files
}

#[test]
fn sizes_have_limits(rt: HostRuntime) -> Result<(), Fail> {
    let mut nodes = Nodes::new(rt.alloc(), None)?;
    let names = b"0123456789ABCDEFGHIJKLMNOPQRSTUVWXYZabcdefghijklmnopqrstuvwxyz-+";
    assert_eq!(rt; filled(&mut nodes, names), 64);
    assert!(rt;
        add_file(&mut nodes, 0, "_", b"1") == Err(StoreError::Code(ErrorCode::InsufficientSpace))
    );
    assert!(rt; write(&mut nodes, 1, At::End, b"1") == refused(ErrorCode::FileTooLarge));
    assert!(rt; set_size(&mut nodes, 1, 1_048_577) == refused(ErrorCode::FileTooLarge));
    assert!(rt; nodes.unlink(0, "0").is_ok());
    assert!(rt;
        add_file(&mut nodes, 0, "_", b"1") == Err(StoreError::Code(ErrorCode::InsufficientSpace))
    );
    Ok(())
}

/// Directories, each in the one before.
fn deep(nodes: &mut Nodes) -> u64 {
    let mut dir = 0;
    for count in 0..70_000u64 {
        match add_directory(nodes, dir, "d") {
            Some(next) => dir = next,
            None => return count,
        }
    }
    70_000
}

#[test]
fn a_tree_has_65536_nodes(rt: HostRuntime) -> Result<(), Fail> {
    let mut nodes = Nodes::new(rt.alloc(), None)?;
    assert_eq!(rt; deep(&mut nodes), 65_535);
    assert_eq!(rt; nodes.len(), 65_536);
    assert!(rt;
        add_file(&mut nodes, 0, "x", b"") == Err(StoreError::Code(ErrorCode::InsufficientSpace))
    );
    Ok(())
}

#[test]
fn refusals_are_told(rt: HostRuntime) -> Result<(), Fail> {
    let code = StoreError::Code(ErrorCode::from(IoKind::NotFound));
    assert!(rt; format!(in rt.alloc(); "{code}")?.as_str() == "no-entry");
    let error = StoreError::OutOfMemory;
    assert!(rt; format!(in rt.alloc(); "{error}")?.as_str() == "out of memory");
    assert!(rt; format!(in rt.alloc(); "{error:>30}")?.as_str() == "out of memory");
    Ok(())
}
