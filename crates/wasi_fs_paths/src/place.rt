ghost use Rattle.std.specs.Prelude.{◌≡◌};
ghost use Rattle.wasi_fs_paths.specs.Paths.{node_of};
ghost use Rattle.wasi_fs_paths.specs.Places.{place_of};

/// What a path leads to.
#[derive(Clone, Copy, Debug, PartialEq, Eq)]
pub enum Place<'a> {
    /// A directory, by its number: the path has no last name.
    Inside(u64),
    /// A directory's number, a last name in it, and the number of the node of that name, where it
    /// is there.
    Named(u64, &'a str, Option<u64>),
}

/// What a call wishes of a path's last name.
#[derive(Clone, Copy, Debug, PartialEq, Eq, Drop)]
pub struct Wish {
    /// A link is to be followed. The tree follows none, so a link is then refused.
    pub follow: bool,
    /// The call may make an entry of the name, so nothing needs to have it yet.
    pub may_make: bool,
}

impl<'a> Place<'a> {
    /// The number of the node at the place; `None` where the last name is absent.
    pub fn node(&self) -> Option<u64>
        ensures { result ≡ node_of (place_of self.now) }
    {
        match *self {
            Place::Inside(dir) => Some(dir),
            Place::Named(_, _, node) => node,
        }
    }
}
