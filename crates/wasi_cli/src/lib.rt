//! Standard streams as a guest is given them, and what it is told of its command line.
#![tactic(auto)]

mod context;
mod exits;
mod forwards;
mod handle;
mod kinds;
mod laws;
mod operations;
mod outcome;
mod owner;
mod shared;
mod stdout_handle;
mod streams;
mod terminals;
#[cfg(test)]
mod tests;
mod texts;
mod turns;
mod units;

pub use context::WasiCliCtx;
pub use exits::{exit, exit_with_code};
pub use handle::StdioHandle;
pub use kinds::{InKind, OutKind};
pub use laws::{freed_owners_are_gone, turns_pass_in_order};
pub use owner::Owner;
pub use shared::{
    shared_cancel, shared_check_write, shared_flush, shared_read, shared_skip, shared_write,
};
pub use stdout_handle::StdoutHandle;
pub use streams::{IsTerminal, P2In, P2Out, PolledIn, PolledOut, StdinStream, StdoutStream};
pub use terminals::{IsATTY, TerminalInput, TerminalOutput};
pub use texts::{ArgList, EnvList};
pub use turns::Turns;
pub use units::{AsyncStdinStream, AsyncStdoutStream, Empty, Stderr, Stdin, Stdout};
pub use wasi_base::Text as CwdText;
