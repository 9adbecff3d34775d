//! The directories that a builder gives.

use crate::{WasiCtx, WasiCtxBuilder};
use bitflags::Flags;
use std::process::Abort;
use std::test::Fail;
use wasi_fs::Dir;
use wasi_fs_types::{FsPerms, OpenMode};

fn directory(node: u64) -> Dir {
    Dir {
        tree: 3,
        node,
        perms: FsPerms::ReadWrite,
        mode: OpenMode::empty(),
        blocking: true,
    }
}

/// Whether the directory at this place is this one, under this path.
fn is_given(rt: &impl Abort, ctx: &WasiCtx, at: u64, dir: Dir, path: &str) {
    assert!(rt; at < ctx.filesystem.len());
    if at < ctx.filesystem.len() {
        assert_eq!(rt; ctx.filesystem.dir(at), dir);
        assert_eq!(rt; ctx.filesystem.path(at), path);
    }
}

#[test]
fn directories_are_given_in_order(rt: HostRuntime) -> Result<(), Fail> {
    let alloc = rt.alloc();
    let mut builder = WasiCtxBuilder::new(alloc);
    builder.preopened_dir(alloc, directory(1), "/a", FsPerms::ReadOnly)?;
    builder.allow_blocking_current_thread(true);
    builder.preopened_dir(alloc, directory(2), "ö", FsPerms::ReadWrite)?;
    builder.preopened_dir(alloc, directory(1), "/a", FsPerms::ReadOnly)?;
    builder.allow_blocking_current_thread(false);
    let mut ctx = builder.build();
    assert_eq!(rt; ctx.filesystem().len(), 3);
    assert!(rt; !ctx.filesystem().blocking());
    let read = Dir {
        perms: FsPerms::ReadOnly,
        mode: OpenMode::READ,
        blocking: false,
        ..directory(1)
    };
    let both = Dir {
        mode: OpenMode::READ.union(OpenMode::WRITE),
        ..directory(2)
    };
    is_given(&rt, &ctx, 0, read, "/a");
    is_given(&rt, &ctx, 1, both, "ö");
    let read = Dir {
        blocking: true,
        ..read
    };
    is_given(&rt, &ctx, 2, read, "/a");
    Ok(())
}
