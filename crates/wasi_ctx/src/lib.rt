//! The contexts of guests: what a builder sets, what a view lends with a guest's table, and
//! contexts by name.
#![tactic(auto)]

mod addresses;
mod builder;
mod caller_check;
mod context;
mod entry;
mod filesystem;
mod hosts;
mod named;
mod named_id;
mod p1_context;
pub mod p2;
pub mod p3;
mod socket_error;
mod sockets;
#[cfg(test)]
mod tests;
mod views;

pub use addresses::{SockAddr, SocketAddrUse};
pub use builder::WasiCtxBuilder;
pub use caller_check::{AddrTest, CallerCheck};
pub use context::WasiCtx;
pub use entry::{Entry, PolledInput, PolledOutput, Table};
pub use filesystem::{Preopens, WasiFilesystemCtx};
pub use hosts::{
    WasiCliView, WasiClocksView, WasiFilesystemView, WasiRandomView, WasiSocketsView, WasiView,
};
pub use named::{
    WasiCliNamedView, WasiClocksNamedView, WasiCtxNamedView, WasiFilesystemNamedView,
    WasiNamedView, WasiRandomNamedView, WasiSocketsNamedView,
};
pub use named_id::NamedId;
pub use p1_context::WasiP1Ctx;
pub use socket_error::{SocketError, SocketErrorCode, SocketResult};
pub use sockets::{SocketAddrCheck, WasiSocketsCtx};
pub use views::{
    LentView, WasiCliCtxView, WasiClocksCtxView, WasiCtxView, WasiFilesystemCtxView,
    WasiSocketsCtxView,
};
