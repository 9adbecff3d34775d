ghost use Rattle.std.specs.Prelude.{◌≡◌};

use crate::{LentView, WasiCliCtxView};
use wasi_random::WasiRandomCtx;

/// A host that lends its whole context, `C`, with the guest's table.
pub trait WasiView<C>: Send {
    ghost use Rattle.wasi_table.specs.Table.{Table};
    ghost use Rattle.wasi_ctx.specs.declared.entry.Entry.{Entry};

    ghost ctx_of: { Self → C };

    ghost ctx_table: { Self → Table Entry };

    fn ctx(&mut self) -> LentView<'_, C>
        ensures ctx { result.ctx.now ≡ ctx_of self.entry.now }
        ensures table { result.table.now ≡ ctx_table self.entry.now };
}

/// A host that lends what a guest is told of its command line, with the guest's table.
pub trait WasiCliView: Send {
    ghost use Rattle.wasi_table.specs.Table.{Table};
    ghost use Rattle.wasi_cli.specs.declared.context.WasiCliCtx.{WasiCliCtx};
    ghost use Rattle.wasi_ctx.specs.declared.entry.Entry.{Entry};

    ghost cli_of: { Self → WasiCliCtx };

    ghost cli_table: { Self → Table Entry };

    fn cli(&mut self) -> WasiCliCtxView<'_>
        ensures ctx { result.ctx.now ≡ cli_of self.entry.now }
        ensures table { result.table.now ≡ cli_table self.entry.now };
}

/// A host that lends its clocks, `C`, with the guest's table.
pub trait WasiClocksView<C>: Send {
    ghost use Rattle.wasi_table.specs.Table.{Table};
    ghost use Rattle.wasi_ctx.specs.declared.entry.Entry.{Entry};

    ghost clocks_of: { Self → C };

    ghost clocks_table: { Self → Table Entry };

    fn clocks(&mut self) -> LentView<'_, C>
        ensures ctx { result.ctx.now ≡ clocks_of self.entry.now }
        ensures table { result.table.now ≡ clocks_table self.entry.now };
}

/// A host that lends its files, `C`, with the guest's table.
pub trait WasiFilesystemView<C>: Send {
    ghost use Rattle.wasi_table.specs.Table.{Table};
    ghost use Rattle.wasi_ctx.specs.declared.entry.Entry.{Entry};

    ghost filesystem_of: { Self → C };

    ghost filesystem_table: { Self → Table Entry };

    fn filesystem(&mut self) -> LentView<'_, C>
        ensures ctx { result.ctx.now ≡ filesystem_of self.entry.now }
        ensures table { result.table.now ≡ filesystem_table self.entry.now };
}

/// A host that lends its sockets, `C`, with the guest's table.
pub trait WasiSocketsView<C>: Send {
    ghost use Rattle.wasi_table.specs.Table.{Table};
    ghost use Rattle.wasi_ctx.specs.declared.entry.Entry.{Entry};

    ghost sockets_of: { Self → C };

    ghost sockets_table: { Self → Table Entry };

    fn sockets(&mut self) -> LentView<'_, C>
        ensures ctx { result.ctx.now ≡ sockets_of self.entry.now }
        ensures table { result.table.now ≡ sockets_table self.entry.now };
}

/// A host that lends its random sources, `C`.
pub trait WasiRandomView<C>: Send {
    ghost random_of: { Self → C };

    fn random(&mut self) -> &mut C
        ensures { result.now ≡ random_of self.entry.now };
}

impl WasiRandomView<WasiRandomCtx> for WasiRandomCtx {
    ghost random_of = { λ sources. sources };

    fn random(&mut self) -> &mut WasiRandomCtx {
        self
    }
}
