//! Makes as many files in one directory as its word says, looks each up, and prints how many were
//! found.
#![tactic(auto)]

use bitflags::Flags;
use std::alloc::Global;
use std::env;
use std::process::ExitCode;
use wasi_clocks::WallTime;
use wasi_fs::{Descriptor, Tree};
use wasi_fs_types::PathFlags;

fn epoch() -> WallTime {
    WallTime {
        seconds: 0,
        nanoseconds: 0,
    }
}

/// How many files to make: 60000 unless the first word says otherwise.
fn count_of(rt: &HostRuntime) -> u32 {
    match env::args(rt) {
        Ok(mut words) => match words.nth(1) {
            Some(word) => word.parse().unwrap_or(60000),
            None => 60000,
        },
        Err(_) => 60000,
    }
}

fn made(alloc: Global, tree: &mut Tree, count: u32) -> bool {
    for number in 0..count {
        match format!(in alloc; "file{number}") {
            Ok(name) => {
                if tree.add_file(&name, b"", epoch()).is_err() {
                    return false;
                }
            }
            Err(_) => return false,
        }
    }
    true
}

fn found(alloc: Global, tree: &Tree, count: u32) -> u32 {
    let root = Descriptor::Dir(tree.root());
    let mut found = 0;
    for number in 0..count {
        if let Ok(name) = format!(in alloc; "file{number}") {
            if tree.stat_at(&root, PathFlags::empty(), &name).is_ok() {
                found = u32::saturating_add(found, 1);
            }
        }
    }
    found
}

fn main(rt: HostRuntime) -> ExitCode {
    let alloc = rt.alloc();
    let count = count_of(&rt);
    let Ok(mut tree) = Tree::new(alloc, 0, epoch()) else {
        return ExitCode::from(7);
    };
    if !made(alloc, &mut tree, count) {
        return ExitCode::from(7);
    }
    let found = found(alloc, &tree, count);
    match println!(rt; "found {found}") {
        Ok(()) => ExitCode::from(0),
        Err(_) => ExitCode::from(6),
    }
}
