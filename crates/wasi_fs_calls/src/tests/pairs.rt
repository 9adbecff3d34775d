//! Calls on two descriptors, and the order in which they are refused: the kinds of both, the perms
//! of both, two trees, then the paths.

ghost use Rattle.wasi_fs.specs.Trees.{IsOf, IsOfIfHere};

use super::{asked_of_two, line, open_below_root, owned, read_only_root_of, root_of, small_tree};
use crate::PairCall;
use bitflags::Flags;
use std::alloc::Global;
use std::process::Abort;
use std::test::Fail;
use wasi_fs::{Descriptor, Tree};
use wasi_fs_types::{FsPerms, PathFlags};

/// The root of a tree of another number.
fn root_elsewhere(tree: &Tree, perms: FsPerms) -> Descriptor
    ensures { IsOfIfHere tree.now result }
{
    let mut root = tree.root();
    root.tree = if root.tree == 0 { 1 } else { 0 };
    root.perms = perms;
    Descriptor::Dir(root)
}

fn link_at(
    rt: &impl Abort,
    alloc: Global,
    flags: PathFlags,
    path: &str,
    to_path: &str,
) -> PairCall {
    PairCall::LinkAt {
        flags,
        path: owned(rt, alloc, path),
        to_path: owned(rt, alloc, to_path),
    }
}

fn rename_at(rt: &impl Abort, alloc: Global, path: &str, to_path: &str) -> PairCall {
    PairCall::RenameAt {
        path: owned(rt, alloc, path),
        to_path: owned(rt, alloc, to_path),
    }
}

/// Both calls that change something, with the same paths.
fn changes(rt: &impl Abort, alloc: Global) -> [PairCall; 2] {
    [
        link_at(rt, alloc, PathFlags::SYMLINK_FOLLOW, "x", "/"),
        rename_at(rt, alloc, "x", "/"),
    ]
}

fn answers(
    rt: &impl Abort,
    alloc: Global,
    tree: &mut Tree,
    at: &Descriptor,
    to: &Descriptor,
    call: &PairCall,
    want: &str,
) -> Result<(), Fail>
    requires at { IsOf tree.old at.now }
    requires to { IsOfIfHere tree.old to.now }
{
    let answer = asked_of_two(rt, tree, at, to, call);
    let answer = line(alloc, &answer)?;
    assert_eq!(rt; answer.as_str(), want);
    Ok(())
}

#[test]
fn a_file_is_refused_first(rt: HostRuntime) -> Result<(), Fail> {
    let alloc = rt.alloc();
    let mut tree = small_tree(&rt, alloc);
    for call in changes(&rt, alloc) {
        let file = open_below_root(&rt, alloc, &mut tree, "d/f");
        let elsewhere = root_elsewhere(&tree, FsPerms::ReadOnly);
        answers(
            &rt,
            alloc,
            &mut tree,
            &file,
            &elsewhere,
            &call,
            "err not-directory",
        )?;
    }
    for call in changes(&rt, alloc) {
        let file = open_below_root(&rt, alloc, &mut tree, "d/f");
        let root = read_only_root_of(&tree);
        answers(
            &rt,
            alloc,
            &mut tree,
            &root,
            &file,
            &call,
            "err not-directory",
        )?;
    }
    Ok(())
}

#[test]
fn perms_come_before_trees(rt: HostRuntime) -> Result<(), Fail> {
    let alloc = rt.alloc();
    let mut tree = small_tree(&rt, alloc);
    for call in changes(&rt, alloc) {
        let root = read_only_root_of(&tree);
        let elsewhere = root_elsewhere(&tree, FsPerms::ReadWrite);
        answers(
            &rt,
            alloc,
            &mut tree,
            &root,
            &elsewhere,
            &call,
            "err not-permitted",
        )?;
    }
    for call in changes(&rt, alloc) {
        let root = root_of(&tree);
        let elsewhere = root_elsewhere(&tree, FsPerms::ReadOnly);
        answers(
            &rt,
            alloc,
            &mut tree,
            &root,
            &elsewhere,
            &call,
            "err not-permitted",
        )?;
    }
    for call in changes(&rt, alloc) {
        let root = root_of(&tree);
        let elsewhere = root_elsewhere(&tree, FsPerms::ReadWrite);
        answers(
            &rt,
            alloc,
            &mut tree,
            &root,
            &elsewhere,
            &call,
            "err invalid",
        )?;
    }
    Ok(())
}

#[test]
fn names_in_one_tree(rt: HostRuntime) -> Result<(), Fail> {
    let alloc = rt.alloc();
    let mut tree = small_tree(&rt, alloc);
    let follow = PathFlags::SYMLINK_FOLLOW;
    let plain = PathFlags::empty();
    let rows = [
        (link_at(&rt, alloc, follow, "x", "y"), "err invalid"),
        (link_at(&rt, alloc, plain, "x", "/"), "err no-entry"),
        (link_at(&rt, alloc, plain, "d", "e"), "err not-permitted"),
        (link_at(&rt, alloc, plain, "d/f", "l"), "err exist"),
        (link_at(&rt, alloc, plain, "d/f", "g"), "ok"),
        (rename_at(&rt, alloc, "g", "d/f"), "ok"),
        (rename_at(&rt, alloc, ".", "e"), "err invalid"),
        (rename_at(&rt, alloc, "d", "d/x"), "err invalid"),
        (rename_at(&rt, alloc, "l", "d"), "err is-directory"),
        (rename_at(&rt, alloc, "d", "l"), "err not-directory"),
        (rename_at(&rt, alloc, "d/f", "h"), "ok"),
        (rename_at(&rt, alloc, "d/f", "h"), "err no-entry"),
    ];
    for (call, want) in rows {
        let root = root_of(&tree);
        let onto = root_of(&tree);
        answers(&rt, alloc, &mut tree, &root, &onto, &call, want)?;
    }
    Ok(())
}

#[test]
fn one_object_or_two(rt: HostRuntime) -> Result<(), Fail> {
    let alloc = rt.alloc();
    let mut tree = small_tree(&rt, alloc);
    let same = PairCall::IsSameObject;
    let root = root_of(&tree);
    answers(&rt, alloc, &mut tree, &root, &root, &same, "true")?;
    let root = read_only_root_of(&tree);
    let elsewhere = root_elsewhere(&tree, FsPerms::ReadOnly);
    answers(&rt, alloc, &mut tree, &root, &elsewhere, &same, "false")?;
    let directory = open_below_root(&rt, alloc, &mut tree, "d");
    let root = root_of(&tree);
    answers(&rt, alloc, &mut tree, &root, &directory, &same, "false")?;
    Ok(())
}
