mod directories;
mod read_tasks;
mod reads;
mod write_tasks;
mod writes;

use std::alloc::Global;
use wasi_base::IoKind;
use wasi_clocks::WallTime;
use wasi_fs::{File, MemStore};
use wasi_fs_types::{FsPerms, OpenMode};

fn epoch() -> WallTime {
    WallTime {
        seconds: 0,
        nanoseconds: 0,
    }
}

// the one file of a store in memory
const FILE: File = File {
    tree: 0,
    node: 0,
    perms: FsPerms::ReadWrite,
    mode: OpenMode::WRITE,
    blocking: true,
};

// the same, with streams by tasks
const TASK_FILE: File = File {
    tree: 0,
    node: 0,
    perms: FsPerms::ReadWrite,
    mode: OpenMode::WRITE,
    blocking: false,
};

fn store_of(base: u64, bytes: Vec<u8>, fault: Option<IoKind>) -> MemStore {
    MemStore {
        base,
        bytes,
        faults: 0,
        fail_next: fault,
    }
}

fn no_bytes(alloc: Global) -> Vec<u8> {
    Vec::new(alloc)
}
