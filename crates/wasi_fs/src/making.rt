ghost use Rattle.std.specs.Prelude.{◌≡◌, ℕ, length, Some};
ghost use Rattle.wasi_fs_nodes.specs.Changes.{made};
ghost use Rattle.wasi_fs_nodes.specs.Nodes.{bytes_in, kind_at};
ghost use Rattle.wasi_fs_nodes.specs.Outcome.{Leaves};
ghost use Rattle.wasi_fs_nodes.specs.declared.node.Kind.TheVariants.{Directory};
ghost use Rattle.wasi_fs_nodes.specs.declared.node.Node.{Node};
ghost use Rattle.wasi_fs_paths.specs.Places.{IsPlace, place_of};
ghost use Rattle.wasi_fs.specs.Calls.{added_at, added, allowed, made_at};
ghost use Rattle.wasi_fs.specs.Making.{node_for};

use wasi_clocks::Datetime;
use wasi_fs_nodes::{Nodes, StoreError};
use wasi_fs_paths::{Place, Wish, has_trailing_slash, resolve};
use wasi_fs_types::ErrorCode;

/// What a call makes.
#[derive(Clone, Copy)]
pub(crate) enum New<'a> {
    Directory,
    /// A file of these bytes.
    File(&'a [u8]),
    /// A link of this text.
    Link(&'a str),
}

/// The last name has to be there, and a link is itself meant.
pub(crate) const THERE: Wish = Wish {
    follow: false,
    may_make: false,
};

/// The last name may be absent.
pub(crate) const THERE_OR_NEW: Wish = Wish {
    follow: false,
    may_make: true,
};

/// A new node under a name.
fn make(
    nodes: &mut Nodes,
    dir: u64,
    name: &str,
    new: New<'_>,
    time: Option<Datetime>,
) -> Result<u64, StoreError>
    requires { kind_at nodes.old dir ≡ Some Directory }
    ensures { Leaves nodes.old nodes.new result (made nodes.old dir name.now (node_for new.entry time dir)) }
{
    match new {
        New::Directory => nodes.make_directory(dir, name, time),
        New::File(bytes) => nodes.make_file(dir, name, bytes, time),
        New::Link(text) => nodes.make_link(dir, name, text, time),
    }
}

/// A new node at a place.
pub(crate) fn make_at(
    nodes: &mut Nodes,
    place: Place<'_>,
    new: New<'_>,
    time: Option<Datetime>,
) -> Result<u64, StoreError>
    requires { IsPlace nodes.old (place_of place) }
    ensures { Leaves nodes.old nodes.new result (made_at nodes.old (node_for new.entry time) (place_of place.entry)) }
{
    match place {
        Place::Inside(_) => Err(StoreError::Code(ErrorCode::Exist)),
        Place::Named(dir, name, _) => make(nodes, dir, name, new, time),
    }
}

/// A new node at a place whose path had a trailing `/` or none.
fn add_at(
    nodes: &mut Nodes,
    slash: bool,
    place: Place<'_>,
    new: New<'_>,
    time: Option<Datetime>,
) -> Result<u64, StoreError>
    requires { IsPlace nodes.old (place_of place) }
    ensures { Leaves nodes.old nodes.new result (added_at nodes.old slash (node_for new.entry time) (place_of place.entry)) }
{
    match place {
        Place::Inside(_) | Place::Named(_, _, Some(_)) => Err(StoreError::Code(ErrorCode::Exist)),
        Place::Named(_, _, None) if slash => Err(StoreError::Code(ErrorCode::Invalid)),
        Place::Named(dir, name, None) => make(nodes, dir, name, new, time),
    }
}

/// A new node at a path from the root.
pub(crate) fn add(
    nodes: &mut Nodes,
    path: &str,
    new: New<'_>,
    time: Option<Datetime>,
) -> Result<u64, StoreError>
    ensures { Leaves nodes.old nodes.new result (added nodes.old path.now (node_for new.entry time)) }
{
    let root = nodes.root();
    match resolve(nodes, root, THERE_OR_NEW, path) {
        Ok(place) => add_at(nodes, has_trailing_slash(path), place, new, time),
        Err(code) => Err(StoreError::Code(code)),
    }
}

/// Whether a new node of so many bytes may stand at a place whose path had a trailing `/` or none.
fn may_add_at(nodes: &Nodes, slash: bool, place: Place<'_>, size: u64) -> Result<(), ErrorCode>
    ensures { (node : ℕ → Node) → ((dir : ℕ) → length (bytes_in (node dir).body) ≡ size) → result ≡ allowed (added_at nodes.now slash node (place_of place.entry)) }
{
    match place {
        Place::Inside(_) | Place::Named(_, _, Some(_)) => Err(ErrorCode::Exist),
        Place::Named(_, _, None) if slash => Err(ErrorCode::Invalid),
        Place::Named(dir, name, None) => nodes.may_make(dir, name, size),
    }
}

/// Whether a new node of so many bytes may stand at a path from the root.
pub(crate) fn may_add(nodes: &Nodes, path: &str, size: u64) -> Result<(), ErrorCode>
    ensures { (node : ℕ → Node) → ((dir : ℕ) → length (bytes_in (node dir).body) ≡ size) → result ≡ allowed (added nodes.now path.now node) }
{
    match resolve(nodes, nodes.root(), THERE_OR_NEW, path) {
        Ok(place) => may_add_at(nodes, has_trailing_slash(path), place, size),
        Err(code) => Err(code),
    }
}
