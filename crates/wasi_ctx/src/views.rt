ghost use Rattle.std.specs.Prelude.{◌≡◌, None};
ghost use Rattle.wasi_table.specs.Table.{IsPush};
ghost use Rattle.wasi_cli.specs.Kinds.{in_p2, out_p2, in_terminal, out_terminal};
ghost use Rattle.wasi_ctx.specs.Pushes.{IsTerminalPush};

use crate::{Entry, Table, WasiCtx, WasiFilesystemCtx, WasiSocketsCtx};
use wasi_cli::{IsTerminal, StdinStream, StdoutStream, WasiCliCtx};
use wasi_clocks::WasiClocksCtx;
use wasi_random::WasiRandomCtx;
use wasi_table::TableError;

/// A context or a part of one, lent with the table of the guest that it is for.
#[derive(Drop)]
pub struct LentView<'a, C> {
    pub ctx: &'a mut C,
    pub table: &'a mut Table,
}

/// A whole context with the table.
pub type WasiCtxView<'a> = LentView<'a, WasiCtx>;

/// What a guest is told of its command line, with the table.
pub type WasiCliCtxView<'a> = LentView<'a, WasiCliCtx>;

/// The clocks with the table.
pub type WasiClocksCtxView<'a> = LentView<'a, WasiClocksCtx>;

/// The files with the table.
pub type WasiFilesystemCtxView<'a> = LentView<'a, WasiFilesystemCtx>;

/// The sockets with the table.
pub type WasiSocketsCtxView<'a> = LentView<'a, WasiSocketsCtx>;

impl<'a> LentView<'a, WasiCtx> {
    /// The view of the command line's part.
    pub fn cli(self) -> WasiCliCtxView<'a>
        ensures ctx { result.ctx.now ≡ self.entry.ctx.now.cli }
        ensures table { result.table.now ≡ self.entry.table.now }
    {
        let LentView { ctx, table } = self;
        LentView {
            ctx: &mut ctx.cli,
            table,
        }
    }

    /// The view of the clocks' part.
    pub fn clocks(self) -> WasiClocksCtxView<'a>
        ensures ctx { result.ctx.now ≡ self.entry.ctx.now.clocks }
        ensures table { result.table.now ≡ self.entry.table.now }
    {
        let LentView { ctx, table } = self;
        LentView {
            ctx: &mut ctx.clocks,
            table,
        }
    }

    /// The view of the files' part.
    pub fn filesystem(self) -> WasiFilesystemCtxView<'a>
        ensures ctx { result.ctx.now ≡ self.entry.ctx.now.filesystem }
        ensures table { result.table.now ≡ self.entry.table.now }
    {
        let LentView { ctx, table } = self;
        LentView {
            ctx: &mut ctx.filesystem,
            table,
        }
    }

    /// The view of the sockets' part.
    pub fn sockets(self) -> WasiSocketsCtxView<'a>
        ensures ctx { result.ctx.now ≡ self.entry.ctx.now.sockets }
        ensures table { result.table.now ≡ self.entry.table.now }
    {
        let LentView { ctx, table } = self;
        LentView {
            ctx: &mut ctx.sockets,
            table,
        }
    }

    /// The random sources, which no call needs a table for.
    pub fn random(self) -> &'a mut WasiRandomCtx
        ensures { result.now ≡ self.entry.ctx.now.random }
    {
        let LentView { ctx, table: _ } = self;
        &mut ctx.random
    }
}

impl LentView<'_, WasiCliCtx> {
    /// A new entry for the standard input: its number.
    pub fn get_stdin(&mut self) -> Result<u32, TableError>
        ensures same { (self.new.ctx.ghost_name ≡ self.old.ctx.ghost_name) × (self.new.table.ghost_name ≡ self.old.table.ghost_name) }
        ensures ctx { self.new.ctx.now ≡ self.old.ctx.now }
        ensures pushed { IsPush self.old.table.now (Entry.Input (in_p2 self.old.ctx.now.stdin)) None result self.new.table.now }
    {
        let stream = self.ctx.stdin.p2_stream();
        self.table.push(Entry::Input(stream))
    }

    /// A new entry for the standard output: its number.
    pub fn get_stdout(&mut self) -> Result<u32, TableError>
        ensures same { (self.new.ctx.ghost_name ≡ self.old.ctx.ghost_name) × (self.new.table.ghost_name ≡ self.old.table.ghost_name) }
        ensures ctx { self.new.ctx.now ≡ self.old.ctx.now }
        ensures pushed { IsPush self.old.table.now (Entry.Output (out_p2 self.old.ctx.now.stdout)) None result self.new.table.now }
    {
        let stream = self.ctx.stdout.p2_stream();
        self.table.push(Entry::Output(stream))
    }

    /// A new entry for the standard error: its number.
    pub fn get_stderr(&mut self) -> Result<u32, TableError>
        ensures same { (self.new.ctx.ghost_name ≡ self.old.ctx.ghost_name) × (self.new.table.ghost_name ≡ self.old.table.ghost_name) }
        ensures ctx { self.new.ctx.now ≡ self.old.ctx.now }
        ensures pushed { IsPush self.old.table.now (Entry.Output (out_p2 self.old.ctx.now.stderr)) None result self.new.table.now }
    {
        let stream = self.ctx.stderr.p2_stream();
        self.table.push(Entry::Output(stream))
    }

    /// A new entry for the terminal that is the standard input: its number. `None` exactly where
    /// it is no terminal.
    pub fn get_terminal_stdin(&mut self) -> Result<Option<u32>, TableError>
        ensures same { (self.new.ctx.ghost_name ≡ self.old.ctx.ghost_name) × (self.new.table.ghost_name ≡ self.old.table.ghost_name) }
        ensures ctx { self.new.ctx.now ≡ self.old.ctx.now }
        ensures pushed { IsTerminalPush (in_terminal self.old.ctx.now.stdin) self.old.table.now Entry.TerminalInput result self.new.table.now }
    {
        if !self.ctx.stdin.is_terminal() {
            return Ok(None);
        }
        match self.table.push(Entry::TerminalInput) {
            Ok(number) => Ok(Some(number)),
            Err(refusal) => Err(refusal),
        }
    }

    /// A new entry for the terminal that is the standard output: its number. `None` exactly where
    /// it is no terminal.
    pub fn get_terminal_stdout(&mut self) -> Result<Option<u32>, TableError>
        ensures same { (self.new.ctx.ghost_name ≡ self.old.ctx.ghost_name) × (self.new.table.ghost_name ≡ self.old.table.ghost_name) }
        ensures ctx { self.new.ctx.now ≡ self.old.ctx.now }
        ensures pushed { IsTerminalPush (out_terminal self.old.ctx.now.stdout) self.old.table.now Entry.TerminalOutput result self.new.table.now }
    {
        if !self.ctx.stdout.is_terminal() {
            return Ok(None);
        }
        match self.table.push(Entry::TerminalOutput) {
            Ok(number) => Ok(Some(number)),
            Err(refusal) => Err(refusal),
        }
    }

    /// A new entry for the terminal that is the standard error: its number. `None` exactly where
    /// it is no terminal.
    pub fn get_terminal_stderr(&mut self) -> Result<Option<u32>, TableError>
        ensures same { (self.new.ctx.ghost_name ≡ self.old.ctx.ghost_name) × (self.new.table.ghost_name ≡ self.old.table.ghost_name) }
        ensures ctx { self.new.ctx.now ≡ self.old.ctx.now }
        ensures pushed { IsTerminalPush (out_terminal self.old.ctx.now.stderr) self.old.table.now Entry.TerminalOutput result self.new.table.now }
    {
        if !self.ctx.stderr.is_terminal() {
            return Ok(None);
        }
        match self.table.push(Entry::TerminalOutput) {
            Ok(number) => Ok(Some(number)),
            Err(refusal) => Err(refusal),
        }
    }
}
