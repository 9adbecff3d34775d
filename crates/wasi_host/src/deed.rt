ghost use Rattle.std.specs.Prelude.{◌≡◌};
ghost use Rattle.wasi_host.specs.Deeds.{is_on_shared};

use crate::Entry;
use wasi_reply::Told;

/// What is to be done for a call of a guest, and what it is told then.
#[derive(Drop)]
pub enum Deed {
    /// Nothing: it is told this. A trap or an exit ends it.
    Tell(Told),
    /// A new entry, under the live one of a number where one is given: it is told the new number.
    Make {
        entry: Entry,
        parent: Option<u64>,
    },
    /// Another entry in place of one of its sort.
    Change {
        number: u64,
        entry: Entry,
        told: Told,
    },
}

impl Deed {
    /// Whether it makes or changes an entry on the shared input, which only a call on that may.
    pub fn is_on_shared(&self) -> bool
        ensures { result ≡ is_on_shared self.now }
    {
        match self {
            Deed::Tell(_) => false,
            Deed::Make { entry, .. } | Deed::Change { entry, .. } => entry.is_shared(),
        }
    }
}
