//! Each call that takes memory finds it, with the least arguments and with the greatest: names of 1
//! and of 255 bytes, and files and texts of 0 and of 1048576 bytes.

use super::{epoch, root_of};
use crate::{At, Descriptor, MemStore, Store, Tree, map_dir_entry};
use bitflags::Flags;
use std::alloc::Global;
use std::test::Fail;
use wasi_clocks::WallTime;
use wasi_fs_types::{DescriptorFlags, DescriptorType, OpenFlags, PathFlags};

/// A letter, so many times.
fn letters(alloc: Global, letter: char, length: usize) -> Result<String, Fail> {
    let mut text = String::new(alloc);
    for _ in 0..length {
        text.push(letter)?;
    }
    Ok(text)
}

/// The lines that fill a tree.
fn additions(
    alloc: Global,
    number: u32,
    now: WallTime,
    name: usize,
    size: usize,
) -> Result<bool, Fail> {
    let mut tree = Tree::new(alloc, number, now)?;
    let text = letters(alloc, 't', size)?;
    let directory = tree
        .add_dir(letters(alloc, 'a', name)?.as_str(), now)
        .is_ok();
    let file = tree
        .add_file(letters(alloc, 'b', name)?.as_str(), text.as_bytes(), now)
        .is_ok();
    let link = tree
        .add_link(letters(alloc, 'c', name)?.as_str(), text.as_str(), now)
        .is_ok();
    let root = root_of(&tree);
    let read = tree.readlink_at(&root, letters(alloc, 'c', name)?.as_str());
    let same = read.is_ok_and(|read| read.as_str().len() == size);
    let listed = tree.list(&tree.root()).is_ok();
    Ok(directory && file && link && same && listed)
}

/// The calls that make names.
fn new_names(alloc: Global, name: usize, size: usize) -> Result<bool, Fail> {
    let mut tree = Tree::new(alloc, 0, epoch())?;
    let text = letters(alloc, 't', size)?;
    let a = letters(alloc, 'a', name)?;
    let b = letters(alloc, 'b', name)?;
    let c = letters(alloc, 'c', name)?;
    let root = root_of(&tree);
    let directory = tree.create_directory_at(&root, a.as_str(), epoch()).is_ok();
    let root = root_of(&tree);
    let link = tree
        .symlink_at(&root, text.as_str(), b.as_str(), epoch())
        .is_ok();
    let root = root_of(&tree);
    let linked = tree
        .link_at(&root, PathFlags::empty(), b.as_str(), &root, c.as_str())
        .is_ok();
    let root = root_of(&tree);
    let moved = tree.rename_at(&root, a.as_str(), &root, "d").is_ok();
    Ok(directory && link && linked && moved)
}

/// A file that is made by opening it, cut to a size and then written.
fn opened(alloc: Global, name: usize, size: usize) -> Result<bool, Fail> {
    let mut tree = Tree::new(alloc, 0, epoch())?;
    let path = letters(alloc, 'f', name)?;
    let bytes = letters(alloc, 'b', size)?;
    let root = root_of(&tree);
    let write = DescriptorFlags::WRITE;
    match tree.open_at(
        &root,
        PathFlags::empty(),
        path.as_str(),
        OpenFlags::CREATE,
        write,
        epoch(),
        false,
    ) {
        Ok(Descriptor::File(file)) => {
            let wrote = tree.write_at(file.node, At::Offset(0), bytes.as_bytes());
            let at = Descriptor::File(file);
            let sized = tree.set_size(&at, size as u64).is_ok();
            Ok(wrote == Ok(size) && sized)
        }
        Ok(Descriptor::Dir(_)) | Err(_) => Ok(false),
    }
}

/// One file in memory that is written, and an entry of a name in bytes.
fn others(alloc: Global, base: u64, name: usize, size: usize) -> Result<bool, Fail> {
    let bytes = letters(alloc, 'b', size)?;
    let mut store = MemStore {
        base,
        bytes: Vec::new(alloc),
        faults: 0,
        fail_next: None,
    };
    let wrote = store.write_at(0, At::Offset(base), bytes.as_bytes());
    let entry = map_dir_entry(
        alloc,
        letters(alloc, 'n', name)?.as_bytes(),
        DescriptorType::Directory,
    );
    Ok(wrote == Ok(size) && entry.is_ok())
}

#[test]
fn the_least_arguments_find_memory(rt: HostRuntime) -> Result<(), Fail> {
    assert!(rt; additions(rt.alloc(), 0, epoch(), 1, 0)?);
    assert!(rt; new_names(rt.alloc(), 1, 0)?);
    assert!(rt; opened(rt.alloc(), 1, 0)?);
    assert!(rt; others(rt.alloc(), 0, 0, 0)?);
    Ok(())
}

#[test]
fn the_greatest_arguments_find_memory(rt: HostRuntime) -> Result<(), Fail> {
    let late = WallTime {
        seconds: u64::MAX,
        nanoseconds: 999_999_999,
    };
    assert!(rt; additions(rt.alloc(), u32::MAX, late, 255, 1_048_576)?);
    assert!(rt; new_names(rt.alloc(), 255, 1_048_576)?);
    assert!(rt; opened(rt.alloc(), 255, 1_048_576)?);
    assert!(rt; others(rt.alloc(), u64::MAX, 255, 1_048_576)?);
    Ok(())
}
