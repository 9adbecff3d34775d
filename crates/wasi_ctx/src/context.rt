ghost use Rattle.std.specs.Prelude.{◌≡◌, [], false};
ghost use Rattle.wasi_cli.specs.Environment.{no_command_line};

use crate::{WasiCtxBuilder, WasiFilesystemCtx, WasiSocketsCtx};
use std::alloc::Global;
use wasi_cli::WasiCliCtx;
use wasi_clocks::WasiClocksCtx;
use wasi_random::WasiRandomCtx;

/// All that a guest's calls are answered from, but for its table.
#[derive(Drop)]
pub struct WasiCtx {
    pub cli: WasiCliCtx,
    pub clocks: WasiClocksCtx,
    pub filesystem: WasiFilesystemCtx,
    pub random: WasiRandomCtx,
    pub sockets: WasiSocketsCtx,
}

impl WasiCtx {
    /// A builder that starts from the defaults.
    pub fn builder(alloc: Global) -> WasiCtxBuilder
        ensures cli { result.ctx.cli ≡ no_command_line }
        ensures clocks { ⟦<WasiClocksCtx as Default>⟧.is_default result.ctx.clocks }
        ensures filesystem { result.ctx.filesystem ≡ record { preopens = []; allow_blocking_current_thread = false } }
        ensures random { ⟦<WasiRandomCtx as Default>⟧.is_default result.ctx.random }
        ensures sockets { ⟦<WasiSocketsCtx as Default>⟧.is_default result.ctx.sockets }
    {
        WasiCtxBuilder::new(alloc)
    }

    /// The context in which nothing was set.
    pub fn default(alloc: Global) -> WasiCtx
        ensures cli { result.cli ≡ no_command_line }
        ensures clocks { ⟦<WasiClocksCtx as Default>⟧.is_default result.clocks }
        ensures filesystem { result.filesystem ≡ record { preopens = []; allow_blocking_current_thread = false } }
        ensures random { ⟦<WasiRandomCtx as Default>⟧.is_default result.random }
        ensures sockets { ⟦<WasiSocketsCtx as Default>⟧.is_default result.sockets }
    {
        WasiCtxBuilder::new(alloc).build()
    }

    /// The random sources.
    pub fn random(&mut self) -> &mut WasiRandomCtx
        ensures { result.now ≡ self.entry.now.random }
    {
        &mut self.random
    }

    /// The clocks.
    pub fn clocks(&mut self) -> &mut WasiClocksCtx
        ensures { result.now ≡ self.entry.now.clocks }
    {
        &mut self.clocks
    }

    /// What a guest is told of its command line.
    pub fn cli(&mut self) -> &mut WasiCliCtx
        ensures { result.now ≡ self.entry.now.cli }
    {
        &mut self.cli
    }

    /// What a guest may do with files.
    pub fn filesystem(&mut self) -> &mut WasiFilesystemCtx
        ensures { result.now ≡ self.entry.now.filesystem }
    {
        &mut self.filesystem
    }

    /// What a guest may do with sockets.
    pub fn sockets(&mut self) -> &mut WasiSocketsCtx
        ensures { result.now ≡ self.entry.now.sockets }
    {
        &mut self.sockets
    }
}
