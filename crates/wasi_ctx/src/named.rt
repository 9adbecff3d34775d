ghost use Rattle.std.specs.Prelude.{◌≡◌, None, IfOk};
ghost use Rattle.wasi_table.specs.Table.{IsPush};
ghost use Rattle.wasi_cli.specs.Kinds.{in_p2, out_p2, in_terminal, out_terminal};
ghost use Rattle.wasi_ctx.specs.Pushes.{IsTerminalPush};
ghost use Rattle.wasi_ctx.specs.declared.entry.Entry.TheVariants as entry;

use crate::{Entry, LentView, NamedId, WasiCliCtxView};
use std::alloc::Global;
use wasi_base::OutOfMemory;
use wasi_cli::{ArgList, CwdText, EnvList, IsTerminal, StdinStream, StdoutStream, WasiCliCtx};
use wasi_table::TableError;

/// A host that lends each of a guest's contexts, `C`, by its name, with the guest's table.
pub trait WasiNamedView<C>: Send {
    ghost use Rattle.wasi_table.specs.Table.{Table};
    ghost use Rattle.wasi_ctx.specs.declared.entry.Entry.{Entry};
    ghost use Rattle.wasi_ctx.specs.declared.named_id.NamedId.{NamedId};

    ghost ctx_of: { Self → NamedId → C };

    ghost ctx_table: { Self → Table Entry };

    fn ctx(&mut self, id: NamedId) -> LentView<'_, C>
        ensures ctx { result.ctx.now ≡ ctx_of self.entry.now id }
        ensures table { result.table.now ≡ ctx_table self.entry.now };
}

/// The same of the clocks, `C`.
pub trait WasiClocksNamedView<C>: Send {
    ghost use Rattle.wasi_table.specs.Table.{Table};
    ghost use Rattle.wasi_ctx.specs.declared.entry.Entry.{Entry};
    ghost use Rattle.wasi_ctx.specs.declared.named_id.NamedId.{NamedId};

    ghost clocks_of: { Self → NamedId → C };

    ghost clocks_table: { Self → Table Entry };

    fn clocks(&mut self, id: NamedId) -> LentView<'_, C>
        ensures ctx { result.ctx.now ≡ clocks_of self.entry.now id }
        ensures table { result.table.now ≡ clocks_table self.entry.now };
}

/// The same of the files, `C`.
pub trait WasiFilesystemNamedView<C>: Send {
    ghost use Rattle.wasi_table.specs.Table.{Table};
    ghost use Rattle.wasi_ctx.specs.declared.entry.Entry.{Entry};
    ghost use Rattle.wasi_ctx.specs.declared.named_id.NamedId.{NamedId};

    ghost filesystem_of: { Self → NamedId → C };

    ghost filesystem_table: { Self → Table Entry };

    fn filesystem(&mut self, id: NamedId) -> LentView<'_, C>
        ensures ctx { result.ctx.now ≡ filesystem_of self.entry.now id }
        ensures table { result.table.now ≡ filesystem_table self.entry.now };
}

/// The same of the sockets, `C`.
pub trait WasiSocketsNamedView<C>: Send {
    ghost use Rattle.wasi_table.specs.Table.{Table};
    ghost use Rattle.wasi_ctx.specs.declared.entry.Entry.{Entry};
    ghost use Rattle.wasi_ctx.specs.declared.named_id.NamedId.{NamedId};

    ghost sockets_of: { Self → NamedId → C };

    ghost sockets_table: { Self → Table Entry };

    fn sockets(&mut self, id: NamedId) -> LentView<'_, C>
        ensures ctx { result.ctx.now ≡ sockets_of self.entry.now id }
        ensures table { result.table.now ≡ sockets_table self.entry.now };
}

/// The same of the random sources, `C`, which no call needs a table for.
pub trait WasiRandomNamedView<C>: Send {
    ghost use Rattle.wasi_ctx.specs.declared.named_id.NamedId.{NamedId};

    ghost random_of: { Self → NamedId → C };

    fn random(&mut self, id: NamedId) -> &mut C
        ensures { result.now ≡ random_of self.entry.now id };
}

/// The same of what a guest is told of its command line. A host says how a context is read and
/// how an entry is made; the calls are then those of `WasiCliCtxView` on the named context.
pub trait WasiCliNamedView: Send {
    ghost use Rattle.std.specs.Prelude.{◌≡◌, None};
    ghost use Rattle.wasi_table.specs.Table.{Table, IsPush};
    ghost use Rattle.wasi_cli.specs.Kinds.{in_p2, out_p2, in_terminal, out_terminal};
    ghost use Rattle.wasi_cli.specs.declared.context.WasiCliCtx.{WasiCliCtx};
    ghost use Rattle.wasi_ctx.specs.Pushes.{IsTerminalPush};
    ghost use Rattle.wasi_ctx.specs.declared.entry.Entry.{Entry};
    ghost use Rattle.wasi_ctx.specs.declared.entry.Entry.TheVariants as entry;
    ghost use Rattle.wasi_ctx.specs.declared.named_id.NamedId.{NamedId};

    ghost cli_of: { Self → NamedId → WasiCliCtx };

    ghost cli_table: { Self → Table Entry };

    ghost with_table: { Self → Table Entry → Self };

    /// Lends the named context with the guest's table.
    fn cli(&mut self, id: NamedId) -> WasiCliCtxView<'_>
        ensures ctx { result.ctx.now ≡ cli_of self.entry.now id }
        ensures table { result.table.now ≡ cli_table self.entry.now };

    /// The named context.
    fn command_line(&self, id: NamedId) -> &WasiCliCtx
        ensures { result.now ≡ cli_of self.now id };

    /// Puts an entry into the guest's table, and changes nothing else.
    fn push(&mut self, entry: Entry) -> Result<u32, TableError>
        ensures pushed { IsPush (cli_table self.old) entry None result (cli_table self.new) }
        ensures rest { self.new ≡ with_table self.old (cli_table self.new) };

    /// The same for a terminal, where the stream is one.
    fn push_terminal(&mut self, terminal: bool, entry: Entry) -> Result<Option<u32>, TableError>
        ensures pushed { IsTerminalPush terminal (cli_table self.old) entry result (cli_table self.new) }
        ensures rest { self.new ≡ with_table self.old (cli_table self.new) };

    /// A new entry for the named context's standard input: its number.
    fn get_stdin(&mut self, id: NamedId) -> Result<u32, TableError>
        ensures pushed { IsPush (cli_table self.old) (entry.Input (in_p2 (cli_of self.old id).stdin)) None result (cli_table self.new) }
        ensures rest { self.new ≡ with_table self.old (cli_table self.new) }
    {
        let stream = self.command_line(id).stdin.p2_stream();
        self.push(Entry::Input(stream))
    }

    /// A new entry for the named context's standard output: its number.
    fn get_stdout(&mut self, id: NamedId) -> Result<u32, TableError>
        ensures pushed { IsPush (cli_table self.old) (entry.Output (out_p2 (cli_of self.old id).stdout)) None result (cli_table self.new) }
        ensures rest { self.new ≡ with_table self.old (cli_table self.new) }
    {
        let stream = self.command_line(id).stdout.p2_stream();
        self.push(Entry::Output(stream))
    }

    /// A new entry for the named context's standard error: its number.
    fn get_stderr(&mut self, id: NamedId) -> Result<u32, TableError>
        ensures pushed { IsPush (cli_table self.old) (entry.Output (out_p2 (cli_of self.old id).stderr)) None result (cli_table self.new) }
        ensures rest { self.new ≡ with_table self.old (cli_table self.new) }
    {
        let stream = self.command_line(id).stderr.p2_stream();
        self.push(Entry::Output(stream))
    }

    /// A new entry for the terminal that the named context's standard input is: its number. `None` exactly
    /// where it is no terminal.
    fn get_terminal_stdin(&mut self, id: NamedId) -> Result<Option<u32>, TableError>
        ensures pushed { IsTerminalPush (in_terminal (cli_of self.old id).stdin) (cli_table self.old) entry.TerminalInput result (cli_table self.new) }
        ensures rest { self.new ≡ with_table self.old (cli_table self.new) }
    {
        let terminal = self.command_line(id).stdin.is_terminal();
        self.push_terminal(terminal, Entry::TerminalInput)
    }

    /// A new entry for the terminal that the named context's standard output is: its number. `None` exactly
    /// where it is no terminal.
    fn get_terminal_stdout(&mut self, id: NamedId) -> Result<Option<u32>, TableError>
        ensures pushed { IsTerminalPush (out_terminal (cli_of self.old id).stdout) (cli_table self.old) entry.TerminalOutput result (cli_table self.new) }
        ensures rest { self.new ≡ with_table self.old (cli_table self.new) }
    {
        let terminal = self.command_line(id).stdout.is_terminal();
        self.push_terminal(terminal, Entry::TerminalOutput)
    }

    /// A new entry for the terminal that the named context's standard error is: its number. `None` exactly
    /// where it is no terminal.
    fn get_terminal_stderr(&mut self, id: NamedId) -> Result<Option<u32>, TableError>
        ensures pushed { IsTerminalPush (out_terminal (cli_of self.old id).stderr) (cli_table self.old) entry.TerminalOutput result (cli_table self.new) }
        ensures rest { self.new ≡ with_table self.old (cli_table self.new) }
    {
        let terminal = self.command_line(id).stderr.is_terminal();
        self.push_terminal(terminal, Entry::TerminalOutput)
    }
}

/// The calls of a guest on one of its contexts, by the context's name.
#[derive(Drop)]
pub struct WasiCtxNamedView<'a, T>(pub &'a mut T);

impl<T: WasiCliNamedView> WasiCtxNamedView<'_, T> {
    /// `get_stdin` on the named context.
    pub fn get_stdin(&mut self, id: NamedId) -> Result<u32, TableError>
        ensures same { self.new.0.ghost_name ≡ self.old.0.ghost_name }
        ensures pushed { IsPush (T.cli_table self.old.0.now) (entry.Input (in_p2 (T.cli_of self.old.0.now id).stdin)) None result (T.cli_table self.new.0.now) }
        ensures rest { self.new.0.now ≡ T.with_table self.old.0.now (T.cli_table self.new.0.now) }
    {
        self.0.get_stdin(id)
    }

    /// `get_stdout` on the named context.
    pub fn get_stdout(&mut self, id: NamedId) -> Result<u32, TableError>
        ensures same { self.new.0.ghost_name ≡ self.old.0.ghost_name }
        ensures pushed { IsPush (T.cli_table self.old.0.now) (entry.Output (out_p2 (T.cli_of self.old.0.now id).stdout)) None result (T.cli_table self.new.0.now) }
        ensures rest { self.new.0.now ≡ T.with_table self.old.0.now (T.cli_table self.new.0.now) }
    {
        self.0.get_stdout(id)
    }

    /// `get_stderr` on the named context.
    pub fn get_stderr(&mut self, id: NamedId) -> Result<u32, TableError>
        ensures same { self.new.0.ghost_name ≡ self.old.0.ghost_name }
        ensures pushed { IsPush (T.cli_table self.old.0.now) (entry.Output (out_p2 (T.cli_of self.old.0.now id).stderr)) None result (T.cli_table self.new.0.now) }
        ensures rest { self.new.0.now ≡ T.with_table self.old.0.now (T.cli_table self.new.0.now) }
    {
        self.0.get_stderr(id)
    }

    /// `get_terminal_stdin` on the named context.
    pub fn get_terminal_stdin(&mut self, id: NamedId) -> Result<Option<u32>, TableError>
        ensures same { self.new.0.ghost_name ≡ self.old.0.ghost_name }
        ensures pushed { IsTerminalPush (in_terminal (T.cli_of self.old.0.now id).stdin) (T.cli_table self.old.0.now) entry.TerminalInput result (T.cli_table self.new.0.now) }
        ensures rest { self.new.0.now ≡ T.with_table self.old.0.now (T.cli_table self.new.0.now) }
    {
        self.0.get_terminal_stdin(id)
    }

    /// `get_terminal_stdout` on the named context.
    pub fn get_terminal_stdout(&mut self, id: NamedId) -> Result<Option<u32>, TableError>
        ensures same { self.new.0.ghost_name ≡ self.old.0.ghost_name }
        ensures pushed { IsTerminalPush (out_terminal (T.cli_of self.old.0.now id).stdout) (T.cli_table self.old.0.now) entry.TerminalOutput result (T.cli_table self.new.0.now) }
        ensures rest { self.new.0.now ≡ T.with_table self.old.0.now (T.cli_table self.new.0.now) }
    {
        self.0.get_terminal_stdout(id)
    }

    /// `get_terminal_stderr` on the named context.
    pub fn get_terminal_stderr(&mut self, id: NamedId) -> Result<Option<u32>, TableError>
        ensures same { self.new.0.ghost_name ≡ self.old.0.ghost_name }
        ensures pushed { IsTerminalPush (out_terminal (T.cli_of self.old.0.now id).stderr) (T.cli_table self.old.0.now) entry.TerminalOutput result (T.cli_table self.new.0.now) }
        ensures rest { self.new.0.now ≡ T.with_table self.old.0.now (T.cli_table self.new.0.now) }
    {
        self.0.get_terminal_stderr(id)
    }

    /// `get_environment` of the named context.
    pub fn get_environment(&self, alloc: Global, id: NamedId) -> Result<EnvList, OutOfMemory>
        ensures { IfOk result (λ copy. copy ≡ (T.cli_of self.now.0.now id).environment) }
    {
        self.0.command_line(id).get_environment(alloc)
    }

    /// `get_arguments` of the named context.
    pub fn get_arguments(&self, alloc: Global, id: NamedId) -> Result<ArgList, OutOfMemory>
        ensures { IfOk result (λ copy. copy ≡ (T.cli_of self.now.0.now id).arguments) }
    {
        self.0.command_line(id).get_arguments(alloc)
    }

    /// `initial_cwd` of the named context.
    pub fn initial_cwd(&self, alloc: Global, id: NamedId) -> Result<Option<CwdText>, OutOfMemory>
        ensures { IfOk result (λ copy. copy ≡ (T.cli_of self.now.0.now id).initial_cwd) }
    {
        self.0.command_line(id).initial_cwd(alloc)
    }
}
