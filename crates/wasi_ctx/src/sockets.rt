ghost use Rattle.std.specs.Prelude.{◌≡◌, false, true};
ghost use Rattle.wasi_ctx.specs.Sockets.{on_check};

use crate::{AddrTest, CallerCheck, SockAddr, SocketAddrUse};

/// Which addresses guests may use.
#[derive(Drop)]
pub enum SocketAddrCheck {
    /// None of them.
    Deny,
    /// Each of them.
    Allow,
    /// Those that the caller's test allows.
    Caller(CallerCheck),
}

/// What guests may do with sockets.
#[derive(Drop)]
pub struct WasiSocketsCtx {
    pub check: SocketAddrCheck,
    pub tcp: bool,
    pub udp: bool,
    /// Whether names of hosts may be looked up.
    pub ip_name_lookup: bool,
}

/// TCP and UDP are allowed, and no address and no look-up of names is.
impl Default for WasiSocketsCtx {
    ghost use Rattle.std.specs.Prelude.{◌≡◌, false, true};
    ghost use Rattle.wasi_ctx.specs.declared.sockets.SocketAddrCheck.TheVariants as check;

    ghost is_default = { λ sockets. sockets ≡ record {
      check = check.Deny;
      tcp = true;
      udp = true;
      ip_name_lookup = false;
    } };

    fn default() -> WasiSocketsCtx {
        WasiSocketsCtx {
            check: SocketAddrCheck::Deny,
            tcp: true,
            udp: true,
            ip_name_lookup: false,
        }
    }
}

impl WasiSocketsCtx {
    /// Whether a guest may use this address so.
    pub fn allows(&self, addr: SockAddr, usage: SocketAddrUse) -> bool
        ensures { on_check self.now.check (result ≡ false) (result ≡ true)
            (λ caller. AddrTest.post caller.test addr usage result) }
    {
        match &self.check {
            SocketAddrCheck::Deny => false,
            SocketAddrCheck::Allow => true,
            SocketAddrCheck::Caller(caller) => (caller.test)(addr, usage),
        }
    }
}
