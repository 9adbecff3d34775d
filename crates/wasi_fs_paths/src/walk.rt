ghost use Rattle.std.specs.Prelude.{◌≡◌, ◌+◌, ◌<◌, ◌^◌, [], length, Some, IfOk};
ghost use Rattle.wasi_fs_nodes.specs.Nodes.{kind_at};
ghost use Rattle.wasi_fs_nodes.specs.declared.node.Kind.TheVariants.{Directory};
ghost use Rattle.wasi_fs_paths.specs.Components.{components};
ghost use Rattle.wasi_fs_paths.specs.Paths.{walk, settled, resolved, found};
ghost use Rattle.wasi_fs_paths.specs.Places.{place_of, place_result, IsPlace};
ghost use Rattle.wasi_fs_paths.specs.laws.Stands.{stand_back, stand_into, stand_past, stand_last, stand_walk};

use crate::components::{
    has_leading_slash, has_trailing_slash, is_nothing, is_parent, next_component,
};
use crate::place::{Place, Wish};
use wasi_fs_nodes::{Kind, Nodes};
use wasi_fs_types::ErrorCode;

/// The most bytes of a name.
const NAME_LIMIT: usize = 255;

/// Where a walk stands: so many directories below its start, in this one.
#[derive(Clone, Copy, Debug, PartialEq, Eq, Drop)]
struct Stand {
    depth: u64,
    here: u64,
}

/// One directory back.
fn back(nodes: &Nodes, stand: Stand) -> Result<Stand, ErrorCode>
    ensures { result ≡ stand_back nodes.now stand.depth stand.here }
{
    if stand.depth == 0 {
        return Err(ErrorCode::NotPermitted);
    }
    Ok(Stand {
        depth: stand.depth - 1,
        here: nodes.parent(stand.here),
    })
}

/// On into the node of a name.
fn into(nodes: &Nodes, depth: u64, entry: Option<u64>) -> Result<Stand, ErrorCode>
    requires { depth + 1 < 2 ^ 64 }
    ensures { result ≡ stand_into nodes.now depth entry }
{
    let here = entry.ok_or(ErrorCode::NoEntry)?;
    match nodes.kind(here) {
        None => Err(ErrorCode::NoEntry),
        Some(Kind::File) => Err(ErrorCode::NotDirectory),
        Some(Kind::Directory) => Ok(Stand {
            depth: depth + 1,
            here,
        }),
        Some(Kind::Link) => Err(ErrorCode::Loop),
    }
}

/// Where the walk stands after a component that is not the last one.
fn past(nodes: &Nodes, stand: Stand, name: &str) -> Result<Stand, ErrorCode>
    requires { stand.depth + 1 < 2 ^ 64 }
    ensures { result ≡ stand_past nodes.now stand.depth stand.here name.now }
{
    if is_parent(name) {
        return back(nodes, stand);
    }
    if name.len() > NAME_LIMIT {
        return Err(ErrorCode::NameTooLong);
    }
    into(nodes, stand.depth, nodes.entry(stand.here, name))
}

/// What the last component leads to.
fn last<'a>(nodes: &Nodes, stand: Stand, name: &'a str) -> Result<Place<'a>, ErrorCode>
    ensures { place_result result ≡ stand_last nodes.now stand.depth stand.here name.now }
{
    if is_parent(name) {
        return match back(nodes, stand) {
            Ok(stand) => Ok(Place::Inside(stand.here)),
            Err(code) => Err(code),
        };
    }
    if name.len() > NAME_LIMIT {
        return Err(ErrorCode::NameTooLong);
    }
    Ok(Place::Named(stand.here, name, nodes.entry(stand.here, name)))
}

/// The walk along a path's components. `..` goes back to the directory that it came from: that is
/// the parent that each directory of a sound tree names.
fn walk<'a>(nodes: &Nodes, start: u64, path: &'a str) -> Result<Place<'a>, ErrorCode>
    ensures { place_result result ≡ walk nodes.now [] start (components path.now) }
{
    let _ = nodes.root();
    walk_on(nodes, start, path)
}

fn walk_on<'a>(nodes: &Nodes, start: u64, path: &'a str) -> Result<Place<'a>, ErrorCode>
    ensures { place_result result ≡ stand_walk nodes.now 0 start (components path.now) }
{
    let Some((first, after)) = next_component(path) else {
        return Ok(Place::Inside(start));
    };
    let mut stand = Stand {
        depth: 0,
        here: start,
    };
    let mut name = first;
    let mut rest = after;
    'steps: while let Some((next, after)) = next_component(rest) {
        stand = past(nodes, stand, name)?;
        name = next;
        rest = after;
    }
    last(nodes, stand, name)
}

/// The rules on what the last name is.
fn settle<'a>(
    nodes: &Nodes,
    wish: Wish,
    slash: bool,
    place: Place<'a>,
) -> Result<Place<'a>, ErrorCode>
    ensures { place_result result ≡ settled nodes.now wish slash (place_of place.entry) }
{
    match place {
        Place::Inside(_) => Ok(place),
        Place::Named(_, _, None) => {
            if wish.may_make {
                Ok(place)
            } else {
                Err(ErrorCode::NoEntry)
            }
        }
        Place::Named(_, _, Some(node)) => match nodes.kind(node) {
            None | Some(Kind::Directory) => Ok(place),
            Some(Kind::File) if slash => Err(ErrorCode::NotDirectory),
            Some(Kind::File) => Ok(place),
            Some(Kind::Link) if wish.follow => Err(ErrorCode::Loop),
            Some(Kind::Link) if slash => Err(ErrorCode::NotDirectory),
            Some(Kind::Link) => Ok(place),
        },
    }
}

fn look<'a>(nodes: &Nodes, start: u64, wish: Wish, path: &'a str) -> Result<Place<'a>, ErrorCode>
    ensures { place_result result ≡ resolved nodes.now start wish path.now }
{
    if is_nothing(path) {
        return Err(ErrorCode::NoEntry);
    }
    if has_leading_slash(path) {
        return Err(ErrorCode::NotPermitted);
    }
    match walk(nodes, start, path) {
        Ok(place) => settle(nodes, wish, has_trailing_slash(path), place),
        Err(code) => Err(code),
    }
}

/// What a path leads to from a directory, or the code of its refusal. It costs the path's length,
/// and for each name the logarithm of its directory's names.
///
/// # Errors
///
/// The first that the path meets from its front: `NoEntry` for an empty path; `NotPermitted` for a
/// leading `/`, and for a `..` above the directory; `NameTooLong` for a name over 255 bytes; for a
/// name before the last, `NoEntry` where it is absent, `NotDirectory` for a file and `Loop` for a
/// link. Then for the last name `NoEntry` where it is absent and the call may not make it, `Loop`
/// for a link that is to be followed, and `NotDirectory` where a `/` follows a file or a link.
pub fn resolve<'a>(
    nodes: &Nodes,
    start: u64,
    wish: Wish,
    path: &'a str,
) -> Result<Place<'a>, ErrorCode>
    requires { kind_at nodes.now start ≡ Some Directory }
    ensures is { place_result result ≡ resolved nodes.now start wish path.now }
    ensures place { IfOk result (λ p. IsPlace nodes.now (place_of p)) }
{
    let _ = nodes.root();
    look(nodes, start, wish, path)
}

/// The number of the node that a path names from a directory, or the code of its refusal.
///
/// # Errors
///
/// Those of `resolve` for a call that makes no entry.
pub fn find(nodes: &Nodes, start: u64, follow: bool, path: &str) -> Result<u64, ErrorCode>
    requires { kind_at nodes.now start ≡ Some Directory }
    ensures is { result ≡ found nodes.now start follow path.now }
    ensures made { IfOk result (λ n. n < length nodes.now) }
{
    let wish = Wish {
        follow,
        may_make: false,
    };
    let _ = nodes.root();
    let place = resolve(nodes, start, wish, path)?;
    place.node().ok_or(ErrorCode::NoEntry)
}
