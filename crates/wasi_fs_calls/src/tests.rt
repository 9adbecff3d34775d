//! Calls on one small tree, number 0: node 0 is the root, with the directory `d` (1), in it the
//! file `f` (2) of two bytes, and beside it the link `l` (3) to `d`. Each answer is compared as one
//! line of text.

ghost use Rattle.std.specs.Prelude.{◌≡◌};
ghost use Rattle.wasi_fs.specs.Trees.{IsOf, IsOfIfHere, KeepsDescriptors};
ghost use Rattle.wasi_fs_calls.specs.Rule.{IsMadeIn};

mod one;
mod pairs;

use crate::{DescriptorAnswer, DescriptorCall, DescriptorTold, PairCall, answer, answer_pair};
use bitflags::Flags;
use std::alloc::Global;
use std::process::Abort;
use std::test::Fail;
use wasi_base::Text;
use wasi_clocks::{Datetime, WallTime};
use wasi_fs::{Descriptor, Tree};
use wasi_fs_types::{DescriptorFlags, DescriptorStat, FsPerms, OpenFlags, PathFlags};

fn epoch() -> WallTime {
    WallTime {
        seconds: 0,
        nanoseconds: 0,
    }
}

fn small_tree(rt: &impl Abort, alloc: Global) -> Tree {
    let mut tree = Tree::new(alloc, 0, epoch()).expect(rt, "memory for a tree");
    let directory = tree.add_dir("d", epoch()).is_ok();
    let file = tree.add_file("d/f", b"hi", epoch()).is_ok();
    let link = tree.add_link("l", "d", epoch()).is_ok();
    assert!(rt; directory && file && link);
    tree
}

fn root_of(tree: &Tree) -> Descriptor
    ensures { IsOf tree.now result }
{
    Descriptor::Dir(tree.root())
}

fn read_only_root_of(tree: &Tree) -> Descriptor
    ensures { IsOf tree.now result }
{
    let mut root = tree.root();
    root.perms = FsPerms::ReadOnly;
    Descriptor::Dir(root)
}

fn owned(rt: &impl Abort, alloc: Global, text: &str) -> Text {
    Text::from_str(alloc, text).expect(rt, "memory for a text")
}

/// The answer of a call; it is given with ample memory.
fn asked(
    rt: &impl Abort,
    tree: &mut Tree,
    at: &Descriptor,
    call: &DescriptorCall,
) -> DescriptorAnswer
    requires { IsOf tree.old at.now }
    ensures kept { KeepsDescriptors tree.old tree.new }
    ensures made { IsMadeIn tree.new result }
{
    answer(tree, call, at, false, epoch()).expect(rt, "memory for a call")
}

fn asked_of_two(
    rt: &impl Abort,
    tree: &mut Tree,
    at: &Descriptor,
    to: &Descriptor,
    call: &PairCall,
) -> DescriptorAnswer
    requires at { IsOf tree.old at.now }
    requires to { IsOfIfHere tree.old to.now }
    ensures kept { KeepsDescriptors tree.old tree.new }
{
    answer_pair(tree, call, at, to).expect(rt, "memory for a call")
}

/// What a path leads to below the root, open to be read and written where it is a file.
fn open_below_root(rt: &impl Abort, alloc: Global, tree: &mut Tree, path: &str) -> Descriptor
    ensures kept { KeepsDescriptors tree.old tree.new }
    ensures of_tree { IsOf tree.new result }
{
    let root = root_of(tree);
    let read = DescriptorFlags::READ;
    let as_file = open_to(
        rt,
        alloc,
        path,
        OpenFlags::empty(),
        read | DescriptorFlags::WRITE,
    );
    let as_directory = open_to(rt, alloc, path, OpenFlags::empty(), read);
    if let DescriptorAnswer::Opened(at) = asked(rt, tree, &root, &as_file) {
        return at;
    }
    match asked(rt, tree, &root, &as_directory) {
        DescriptorAnswer::Opened(at) => at,
        DescriptorAnswer::Told(_) => {
            assert!(rt; false, "{path}");
            root
        }
    }
}

fn open_to(
    rt: &impl Abort,
    alloc: Global,
    path: &str,
    how: OpenFlags,
    mode: DescriptorFlags,
) -> DescriptorCall {
    DescriptorCall::OpenAt {
        flags: PathFlags::empty(),
        path: owned(rt, alloc, path),
        how,
        mode,
    }
}

fn time_line(alloc: Global, time: Option<Datetime>) -> Result<String, Fail> {
    match time {
        Some(time) => Ok(format!(in alloc; "{}:{}", time.seconds, time.nanoseconds)?),
        None => Ok(format!(in alloc; "none")?),
    }
}

fn stat_line(alloc: Global, stat: DescriptorStat) -> Result<String, Fail> {
    let access = time_line(alloc, stat.data_access_timestamp)?;
    let data = time_line(alloc, stat.data_modification_timestamp)?;
    let status = time_line(alloc, stat.status_change_timestamp)?;
    let (kind, links, size) = (stat.type_, stat.link_count, stat.size);
    Ok(format!(in alloc; "stat {kind:?} {links} {size} {access} {data} {status}")?)
}

fn told_line(alloc: Global, told: &DescriptorTold) -> Result<String, Fail> {
    match told {
        DescriptorTold::Ok => Ok(format!(in alloc; "ok")?),
        DescriptorTold::Flags(flags) => Ok(format!(in alloc; "flags {}", flags.bits())?),
        DescriptorTold::Type(kind) => Ok(format!(in alloc; "type {kind:?}")?),
        DescriptorTold::Stat(stat) => stat_line(alloc, *stat),
        DescriptorTold::Text(text) => Ok(format!(in alloc; "text {}", text.as_str())?),
        DescriptorTold::Truth(truth) => Ok(format!(in alloc; "{truth}")?),
        DescriptorTold::Hash { node } => Ok(format!(in alloc; "hash {node}")?),
        DescriptorTold::Err(code) => Ok(format!(in alloc; "err {code}")?),
    }
}

/// An answer as a line of text.
fn line(alloc: Global, answer: &DescriptorAnswer) -> Result<String, Fail> {
    match answer {
        DescriptorAnswer::Told(told) => told_line(alloc, told),
        DescriptorAnswer::Opened(Descriptor::File(file)) => {
            Ok(format!(in alloc; "file {}", file.node)?)
        }
        DescriptorAnswer::Opened(Descriptor::Dir(dir)) => {
            Ok(format!(in alloc; "directory {}", dir.node)?)
        }
    }
}

/// A call's answer is this line.
fn says(
    rt: &impl Abort,
    alloc: Global,
    tree: &mut Tree,
    at: &Descriptor,
    call: &DescriptorCall,
    want: &str,
) -> Result<(), Fail>
    requires { IsOf tree.old at.now }
    ensures kept { KeepsDescriptors tree.old tree.new }
{
    let answer = asked(rt, tree, at, call);
    let answer = line(alloc, &answer)?;
    assert_eq!(rt; answer.as_str(), want);
    Ok(())
}
