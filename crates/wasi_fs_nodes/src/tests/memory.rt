//! Each call that takes memory finds it, with the least arguments and with the greatest.

use super::{add_directory, add_file, add_link, rename, set_size, write};
use crate::{At, Kind, Nodes, StoreError};
use std::alloc::Global;
use std::test::Fail;
use wasi_fs_types::ErrorCode;

/// One more name for a node that was made.
fn link(nodes: &mut Nodes, dir: u64, name: &str, node: u64) -> Result<(), StoreError> {
    match nodes.kind(dir) {
        Some(Kind::Directory) if node < nodes.len() => nodes.link(dir, name, node),
        _ => Err(StoreError::Code(ErrorCode::NotDirectory)),
    }
}

/// A directory (1), in it a file (2) and a link (3), of these names, bytes and text. The file moves
/// and is then linked where it was.
fn names_find_memory(alloc: Global, name: &str, other: &str, text: &[u8]) -> Result<bool, Fail> {
    let mut nodes = Nodes::new(alloc, None)?;
    let link_text = std::str::from_utf8(text).ok().ok_or("no text")?;
    let directory = add_directory(&mut nodes, 0, name).is_some();
    let file = add_file(&mut nodes, 1, name, text).is_ok();
    let linked = add_link(&mut nodes, 1, other, link_text).is_some();
    let moved = rename(&mut nodes, 1, name, 0, other).is_ok();
    let again = link(&mut nodes, 1, name, 2).is_ok();
    let names = nodes.list(0)?.len() == 2 && nodes.list(1)?.len() == 2;
    Ok(directory && file && linked && moved && again && names)
}

/// A file (1) that is written, and another (2) that is cut to the same size.
fn bytes_find_memory(alloc: Global, bytes: &[u8]) -> Result<bool, Fail> {
    let mut nodes = Nodes::new(alloc, None)?;
    let one = add_file(&mut nodes, 0, "w", b"").is_ok();
    let other = add_file(&mut nodes, 0, "s", b"").is_ok();
    let written = write(&mut nodes, 1, At::End, bytes).is_ok();
    let sized = set_size(&mut nodes, 2, bytes.len() as u64).is_ok();
    Ok(one && other && written && sized && nodes.file_size(1) == nodes.file_size(2))
}

#[test]
fn the_least_arguments_find_memory(rt: HostRuntime) -> Result<(), Fail> {
    assert!(rt; names_find_memory(rt.alloc(), "", "o", b"")?);
    assert!(rt; bytes_find_memory(rt.alloc(), b"")?);
    Ok(())
}

#[test]
fn the_greatest_arguments_find_memory(rt: HostRuntime) -> Result<(), Fail> {
    let name = vec![in rt.alloc(); b'n'; 255]?;
    let name = std::str::from_utf8(name.as_slice()).ok().ok_or("no text")?;
    let other = vec![in rt.alloc(); b'o'; 255]?;
    let other = std::str::from_utf8(other.as_slice()).ok().ok_or("no text")?;
    let bytes = vec![in rt.alloc(); b'b'; 1_048_576]?;
    assert!(rt; names_find_memory(rt.alloc(), name, other, bytes.as_slice())?);
    assert!(rt; bytes_find_memory(rt.alloc(), bytes.as_slice())?);
    Ok(())
}

/// Directories with the names 0, 1, 2 and so on, all in the root, as many as there may be.
fn wide(alloc: Global, nodes: &mut Nodes) -> Result<u64, Fail> {
    for count in 0..70_000u64 {
        let name = format!(in alloc; "{count}")?;
        if add_directory(nodes, 0, name.as_str()).is_none() {
            return Ok(count);
        }
    }
    Ok(70_000)
}

#[test]
fn the_longest_list_finds_memory(rt: HostRuntime) -> Result<(), Fail> {
    let mut nodes = Nodes::new(rt.alloc(), None)?;
    assert_eq!(rt; wide(rt.alloc(), &mut nodes)?, 65_535);
    assert_eq!(rt; nodes.list(0)?.len(), 65_535);
    Ok(())
}
