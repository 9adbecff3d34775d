ghost use Rattle.std.specs.Prelude.{◌≡◌};

use crate::{SockAddr, SocketAddrUse};

/// Whether a guest may use an address.
pub type AddrTest = Box<dyn Fn(SockAddr, SocketAddrUse) -> bool + Send>;

/// A test of the caller's, which may be called on every address and use.
#[derive(Drop)]
pub struct CallerCheck {
    pub test: AddrTest,
    pub ghost callable: { AddrTest.IsAlwaysCallable test },
}
