use super::*;
use crate::{
    Entry, LentView, NamedId, Table, WasiCliCtxView, WasiCliNamedView, WasiCtxNamedView,
    WasiRandomView,
};
use wasi_cli::{P2In, P2Out, WasiCliCtx};
use wasi_table::TableError;

// A guest's contexts by name: a name that none has is the main one's.
#[derive(Drop)]
struct Guest {
    main: WasiCliCtx,
    named: Vec<WasiCliCtx>,
    table: Table,
}

impl WasiCliNamedView for Guest {
    ghost use Rattle.std.specs.Prelude.{unwrap_or, slice_get};

    ghost cli_of = { λ guest id. unwrap_or (slice_get guest.named.items id.0) guest.main };

    ghost cli_table = { λ guest. guest.table };

    ghost with_table = { λ guest table. record guest { table = table } };

    fn cli(&mut self, id: NamedId) -> WasiCliCtxView<'_> {
        if id.0 < self.named.len() {
            LentView {
                ctx: &mut self.named[id.0],
                table: &mut self.table,
            }
        } else {
            LentView {
                ctx: &mut self.main,
                table: &mut self.table,
            }
        }
    }

    fn command_line(&self, id: NamedId) -> &WasiCliCtx {
        match self.named.get(id.0) {
            Some(ctx) => ctx,
            None => &self.main,
        }
    }

    fn push(&mut self, entry: Entry) -> Result<u32, TableError> {
        self.table.push(entry)
    }

    fn push_terminal(&mut self, terminal: bool, entry: Entry) -> Result<Option<u32>, TableError> {
        if !terminal {
            return Ok(None);
        }
        match self.table.push(entry) {
            Ok(number) => Ok(Some(number)),
            Err(refusal) => Err(refusal),
        }
    }
}

fn named_context(alloc: Global, number: u32) -> Result<WasiCliCtx, Fail> {
    let mut cli = WasiCliCtx::default(alloc);
    cli.stdin = InKind::Pipe(number);
    cli.stdout = OutKind::Pipe(number);
    cli.stderr = OutKind::Stdio {
        number,
        terminal: true,
    };
    cli.arguments.push(alloc, "named")?;
    Ok(cli)
}

/// A guest whose main context has the shared input, as a terminal, and whose 16 named ones have
/// pipes of their numbers.
fn guest_of_16(alloc: Global) -> Result<Guest, Fail> {
    let mut main = WasiCliCtx::default(alloc);
    main.stdin = InKind::Shared { terminal: true };
    main.environment.push(alloc, "name", "main")?;
    let mut named = Vec::new(alloc);
    for number in 0..16u32 {
        named.push(named_context(alloc, number)?)?;
    }
    Ok(Guest {
        main,
        named,
        table: Table::new(alloc, 64),
    })
}

type View<'a> = WasiCtxNamedView<'a, Guest>;

// A call each: what is known of a guest does not grow from call to call.
fn stdin(rt: &impl Abort, view: &mut View, id: NamedId, number: u32) {
    assert_eq!(rt; view.get_stdin(id), Ok(number));
}

fn stdout(rt: &impl Abort, view: &mut View, id: NamedId, number: u32) {
    assert_eq!(rt; view.get_stdout(id), Ok(number));
}

fn terminal_stdin(rt: &impl Abort, view: &mut View, id: NamedId, number: Option<u32>) {
    assert_eq!(rt; view.get_terminal_stdin(id), Ok(number));
}

fn terminal_stdout(rt: &impl Abort, view: &mut View, id: NamedId, number: Option<u32>) {
    assert_eq!(rt; view.get_terminal_stdout(id), Ok(number));
}

fn terminal_stderr(rt: &impl Abort, view: &mut View, id: NamedId, number: Option<u32>) {
    assert_eq!(rt; view.get_terminal_stderr(id), Ok(number));
}

fn stands(rt: &impl Abort, guest: &Guest, number: u32, kind: u32) {
    assert_eq!(rt; guest.table.kind_of(number), Ok(kind));
}

#[test]
fn contexts_by_name(rt: HostRuntime) -> Result<(), Fail> {
    let alloc = rt.alloc();
    let mut guest = guest_of_16(alloc)?;
    let mut view = WasiCtxNamedView(&mut guest);
    for place in 0..16u32 {
        let id = NamedId(place as usize);
        stdin(&rt, &mut view, id, 3 * place);
        stdout(&rt, &mut view, id, 3 * place + 1);
        terminal_stdin(&rt, &mut view, id, None);
        terminal_stdout(&rt, &mut view, id, None);
        terminal_stderr(&rt, &mut view, id, Some(3 * place + 2));
        assert_eq!(rt; view.get_environment(alloc, id)?.as_slice().len(), 0);
        assert_eq!(rt; view.get_arguments(alloc, id)?.as_slice().len(), 1);
    }
    let main = NamedId(16);
    terminal_stdin(&rt, &mut view, main, Some(48));
    stdin(&rt, &mut view, main, 49);
    assert_eq!(rt; view.get_stderr(main), Ok(50));
    assert_eq!(rt; view.get_environment(alloc, main)?.as_slice().len(), 1);
    assert!(rt; view.initial_cwd(alloc, main)?.is_none());
    stands(&rt, &guest, 48, Entry::TERMINAL_INPUT);
    stands(&rt, &guest, 2, Entry::TERMINAL_OUTPUT);
    match guest.table.get(45, Entry::INPUT) {
        Ok(Entry::Input(stream)) => assert_eq!(rt; *stream, P2In::Pipe(15)),
        _ => panic!(rt; "no input"),
    }
    match guest.table.get(49, Entry::INPUT) {
        Ok(Entry::Input(stream)) => assert_eq!(rt; *stream, P2In::Shared),
        _ => panic!(rt; "no input"),
    }
    match guest.table.get(50, Entry::OUTPUT) {
        Ok(Entry::Output(stream)) => assert_eq!(rt; *stream, P2Out::Sink),
        _ => panic!(rt; "no output"),
    }
    Ok(())
}

#[test]
fn a_view_of_the_command_line(rt: HostRuntime) {
    let alloc = rt.alloc();
    let mut table = Table::new(alloc, 2);
    let mut builder = WasiCtxBuilder::new(alloc);
    builder.inherit_stdin(true);
    let mut ctx = builder.build();
    let whole = LentView {
        ctx: &mut ctx,
        table: &mut table,
    };
    let mut view = whole.cli();
    assert_eq!(rt; view.get_terminal_stdin(), Ok(Some(0)));
    assert_eq!(rt; view.get_terminal_stdout(), Ok(None));
    assert_eq!(rt; view.get_terminal_stderr(), Ok(None));
    assert_eq!(rt; view.get_stdin(), Ok(1));
    assert_eq!(rt; view.get_stdout(), Err(TableError::Full));
    assert_eq!(rt; view.get_stderr(), Err(TableError::Full));
}

#[test]
fn random_sources_lend_themselves(rt: HostRuntime) {
    let mut sources = WasiRandomCtx::default();
    sources.random().max_size = 1;
    assert_eq!(rt; sources.max_size, 1);
}
