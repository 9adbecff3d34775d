//! Paths against what they lead to in one small tree: node 0 is the root, with the directory `a`
//! (1), the file `f` (2) and the link `l` (3); in `a` stand the directory `ä` (4) and the file
//! `g` (5).

use crate::{Place, Wish, find, has_trailing_slash, next_component, resolve};
use std::alloc::Global;
use std::process::Abort;
use std::test::Fail;
use wasi_fs_nodes::{Kind, Nodes};
use wasi_fs_types::ErrorCode;

const LOOK: Wish = Wish {
    follow: false,
    may_make: false,
};

const FOLLOW: Wish = Wish {
    follow: true,
    may_make: false,
};

const MAKE: Wish = Wish {
    follow: false,
    may_make: true,
};

fn add_directory(rt: &impl Abort, nodes: &mut Nodes, dir: u64, name: &str) {
    let added = match nodes.kind(dir) {
        Some(Kind::Directory) => nodes.make_directory(dir, name, None).is_ok(),
        _ => false,
    };
    assert!(rt; added, "{name}");
}

fn add_file(rt: &impl Abort, nodes: &mut Nodes, dir: u64, name: &str) {
    let added = match nodes.kind(dir) {
        Some(Kind::Directory) => nodes.make_file(dir, name, b"", None).is_ok(),
        _ => false,
    };
    assert!(rt; added, "{name}");
}

fn add_link(rt: &impl Abort, nodes: &mut Nodes, dir: u64, name: &str, text: &str) {
    let added = match nodes.kind(dir) {
        Some(Kind::Directory) => nodes.make_link(dir, name, text, None).is_ok(),
        _ => false,
    };
    assert!(rt; added, "{name}");
}

fn small_tree(rt: &impl Abort, alloc: Global) -> Nodes {
    let mut nodes = Nodes::new(alloc, None).expect(rt, "memory for a tree");
    add_directory(rt, &mut nodes, 0, "a");
    add_file(rt, &mut nodes, 0, "f");
    add_link(rt, &mut nodes, 0, "l", "a");
    add_directory(rt, &mut nodes, 1, "ä");
    add_file(rt, &mut nodes, 1, "g");
    nodes
}

/// What a path leads to; `BadDescriptor` where it would begin in no directory.
fn lead<'a>(nodes: &Nodes, start: u64, wish: Wish, path: &'a str) -> Result<Place<'a>, ErrorCode> {
    match nodes.kind(start) {
        Some(Kind::Directory) => resolve(nodes, start, wish, path),
        _ => Err(ErrorCode::BadDescriptor),
    }
}

#[test]
fn paths_that_lead_to_a_place(rt: HostRuntime) {
    let nodes = small_tree(&rt, rt.alloc());
    let rows = [
        (".", Place::Inside(0)),
        ("./", Place::Inside(0)),
        ("a/..", Place::Inside(0)),
        ("a/../", Place::Inside(0)),
        ("a/../.", Place::Inside(0)),
        ("a/ä/..", Place::Inside(1)),
        ("a", Place::Named(0, "a", Some(1))),
        ("a/", Place::Named(0, "a", Some(1))),
        ("./a//.///ä/", Place::Named(1, "ä", Some(4))),
        ("a/../a/ä/../g", Place::Named(1, "g", Some(5))),
        ("f", Place::Named(0, "f", Some(2))),
        ("f/.", Place::Named(0, "f", Some(2))),
        ("f//.", Place::Named(0, "f", Some(2))),
        ("f/./.", Place::Named(0, "f", Some(2))),
        ("l", Place::Named(0, "l", Some(3))),
    ];
    for (path, place) in rows {
        assert_eq!(rt; lead(&nodes, 0, LOOK, path), Ok(place), "{path}");
    }
}

#[test]
fn paths_that_are_refused(rt: HostRuntime) {
    let nodes = small_tree(&rt, rt.alloc());
    let rows = [
        ("", ErrorCode::NoEntry),
        ("/", ErrorCode::NotPermitted),
        ("//a", ErrorCode::NotPermitted),
        ("..", ErrorCode::NotPermitted),
        ("a/../..", ErrorCode::NotPermitted),
        ("../a", ErrorCode::NotPermitted),
        ("x", ErrorCode::NoEntry),
        ("x/", ErrorCode::NoEntry),
        ("x/..", ErrorCode::NoEntry),
        ("x/../..", ErrorCode::NoEntry),
        ("f/", ErrorCode::NotDirectory),
        ("f//", ErrorCode::NotDirectory),
        ("f/./", ErrorCode::NotDirectory),
        ("f/.//", ErrorCode::NotDirectory),
        ("f/..", ErrorCode::NotDirectory),
        ("f/x", ErrorCode::NotDirectory),
        ("l/", ErrorCode::NotDirectory),
        ("l/x", ErrorCode::Loop),
        ("l/..", ErrorCode::Loop),
        ("a/g/x", ErrorCode::NotDirectory),
    ];
    for (path, code) in rows {
        assert_eq!(rt; lead(&nodes, 0, LOOK, path), Err(code), "{path}");
    }
}

#[test]
fn a_call_that_follows_links(rt: HostRuntime) {
    let nodes = small_tree(&rt, rt.alloc());
    assert_eq!(rt; lead(&nodes, 0, FOLLOW, "l"), Err(ErrorCode::Loop));
    assert_eq!(rt; lead(&nodes, 0, FOLLOW, "l/"), Err(ErrorCode::Loop));
    let file = Place::Named(0, "f", Some(2));
    assert_eq!(rt; lead(&nodes, 0, FOLLOW, "f"), Ok(file));
}

#[test]
fn a_call_that_makes_names(rt: HostRuntime) {
    let nodes = small_tree(&rt, rt.alloc());
    let absent = Place::Named(0, "x", None);
    assert_eq!(rt; lead(&nodes, 0, MAKE, "x"), Ok(absent));
    assert_eq!(rt; lead(&nodes, 0, MAKE, "a/../x/"), Ok(absent));
    assert_eq!(rt; lead(&nodes, 0, MAKE, "x/y"), Err(ErrorCode::NoEntry));
    assert_eq!(rt; lead(&nodes, 0, MAKE, "f/"), Err(ErrorCode::NotDirectory));
}

#[test]
fn a_directory_below_the_root(rt: HostRuntime) {
    let nodes = small_tree(&rt, rt.alloc());
    assert_eq!(rt; lead(&nodes, 1, LOOK, ".."), Err(ErrorCode::NotPermitted));
    assert_eq!(rt; lead(&nodes, 1, LOOK, "ä/.."), Ok(Place::Inside(1)));
    assert_eq!(rt; lead(&nodes, 1, LOOK, "a"), Err(ErrorCode::NoEntry));
    let file = Place::Named(1, "g", Some(5));
    assert_eq!(rt; lead(&nodes, 1, LOOK, "g"), Ok(file));
}

#[test]
fn the_longest_name(rt: HostRuntime) -> Result<(), Fail> {
    let nodes = small_tree(&rt, rt.alloc());
    let name = "x".repeat(rt.alloc(), 255)?;
    let name = name.as_str();
    assert_eq!(rt; lead(&nodes, 0, LOOK, name), Err(ErrorCode::NoEntry));
    let place = Place::Named(0, name, None);
    assert_eq!(rt; lead(&nodes, 0, MAKE, name), Ok(place));
    let inner = format!(in rt.alloc(); "{name}/..")?;
    assert_eq!(rt;
        lead(&nodes, 0, LOOK, inner.as_str()),
        Err(ErrorCode::NoEntry)
    );
    Ok(())
}

#[test]
fn a_name_that_is_too_long(rt: HostRuntime) -> Result<(), Fail> {
    let nodes = small_tree(&rt, rt.alloc());
    let name = "ä".repeat(rt.alloc(), 128)?;
    let long = Err(ErrorCode::NameTooLong);
    assert_eq!(rt; lead(&nodes, 0, MAKE, name.as_str()), long);
    let inner = format!(in rt.alloc(); "a/{name}/../../..")?;
    assert_eq!(rt; lead(&nodes, 0, LOOK, inner.as_str()), long);
    let root = format!(in rt.alloc(); "/{name}")?;
    assert_eq!(rt;
        lead(&nodes, 0, LOOK, root.as_str()),
        Err(ErrorCode::NotPermitted)
    );
    Ok(())
}

#[test]
fn the_node_of_a_path(rt: HostRuntime) {
    let nodes = small_tree(&rt, rt.alloc());
    let rows = [
        (".", Ok(0)),
        ("a/..", Ok(0)),
        ("a/g", Ok(5)),
        ("l", Ok(3)),
        ("x", Err(ErrorCode::NoEntry)),
        ("f/", Err(ErrorCode::NotDirectory)),
    ];
    for (path, number) in rows {
        let found = match nodes.kind(0) {
            Some(Kind::Directory) => find(&nodes, 0, false, path),
            _ => Err(ErrorCode::BadDescriptor),
        };
        assert_eq!(rt; found, number, "{path}");
    }
}

#[test]
fn components_one_by_one(rt: HostRuntime) {
    assert_eq!(rt; next_component("./a//b/"), Some(("a", "/b/")));
    assert_eq!(rt; next_component("/b/"), Some(("b", "")));
    assert_eq!(rt; next_component("..a/./"), Some(("..a", "./")));
    assert_eq!(rt; next_component(".//."), None);
}

/// The endings that the Rust crate's own tests of a trailing slash have.
#[test]
fn endings_of_paths(rt: HostRuntime) {
    for path in ["/", "//", "f/", "f//", "f/./", "f/.//"] {
        assert!(rt; has_trailing_slash(path), "{path}");
    }
    for path in ["f", "f.", "/./f", "..", "/..", ".", "/./.", "f//.", "f/./."] {
        assert!(rt; !has_trailing_slash(path), "{path}");
    }
}
