ghost use Rattle.wasi_cli.specs.Kinds.{in_terminal, in_polled, in_p2, out_terminal, out_polled, out_p2};

use crate::{IsTerminal, P2In, P2Out, PolledIn, PolledOut, StdinStream, StdoutStream};

/// What a guest's standard input is. Numbers are those of the host's streams of the kind.
#[derive(Clone, Copy, Debug, PartialEq, Eq, Drop)]
pub enum InKind {
    /// The input that guests share.
    Shared { terminal: bool },
    Empty,
    Closed,
    /// A pipe in memory.
    Pipe(u32),
    File(u32),
    /// An input that a task reads ahead.
    Async(u32),
}

/// What a guest's standard output or standard error is. Numbers are those of the host's streams
/// of the kind.
#[derive(Clone, Copy, Debug, PartialEq, Eq, Drop)]
pub enum OutKind {
    Empty,
    /// Takes all bytes and keeps none.
    Sink,
    Closed,
    /// A pipe in memory.
    Pipe(u32),
    File(u32),
    /// A standard output of the process.
    Stdio { number: u32, terminal: bool },
    /// An output that a task writes out.
    Buffered(u32),
}

impl IsTerminal for InKind {
    ghost terminal = { in_terminal };

    fn is_terminal(&self) -> bool {
        match *self {
            InKind::Shared { terminal } => terminal,
            InKind::Empty | InKind::Closed | InKind::Pipe(_) | InKind::File(_) | InKind::Async(_) =>
                false,
        }
    }
}

impl StdinStream for InKind {
    ghost polled = { in_polled };

    ghost p2 = { in_p2 };

    fn async_stream(&self) -> PolledIn {
        match *self {
            InKind::Shared { terminal: _ } => PolledIn::Shared,
            InKind::Empty | InKind::Closed => PolledIn::Empty,
            InKind::Pipe(number) => PolledIn::Pipe(number),
            InKind::File(number) => PolledIn::File(number),
            InKind::Async(number) => PolledIn::Async(number),
        }
    }

    fn p2_stream(&self) -> P2In {
        match *self {
            InKind::Shared { terminal: _ } => P2In::Shared,
            InKind::Empty | InKind::Closed => P2In::Closed,
            InKind::Pipe(number) => P2In::Pipe(number),
            InKind::File(number) => P2In::File(number),
            InKind::Async(number) => P2In::Async(number),
        }
    }
}

impl IsTerminal for OutKind {
    ghost terminal = { out_terminal };

    fn is_terminal(&self) -> bool {
        match *self {
            OutKind::Stdio {
                number: _,
                terminal,
            } => terminal,
            OutKind::Empty
            | OutKind::Sink
            | OutKind::Closed
            | OutKind::Pipe(_)
            | OutKind::File(_)
            | OutKind::Buffered(_) => false,
        }
    }
}

impl StdoutStream for OutKind {
    ghost polled = { out_polled };

    ghost p2 = { out_p2 };

    fn async_stream(&self) -> PolledOut {
        match *self {
            OutKind::Empty | OutKind::Sink => PolledOut::Empty,
            OutKind::Closed => PolledOut::Closed,
            OutKind::Pipe(number) => PolledOut::Pipe(number),
            OutKind::File(number) => PolledOut::File(number),
            OutKind::Stdio {
                number,
                terminal: _,
            } => PolledOut::Stdio(number),
            OutKind::Buffered(number) => PolledOut::Buffered(number),
        }
    }

    fn p2_stream(&self) -> P2Out {
        match *self {
            OutKind::Empty | OutKind::Sink => P2Out::Sink,
            OutKind::Closed => P2Out::Closed,
            OutKind::Pipe(number) => P2Out::Pipe(number),
            OutKind::File(number) => P2Out::File(number),
            OutKind::Stdio {
                number,
                terminal: _,
            } => P2Out::Stdio(number),
            OutKind::Buffered(number) => P2Out::Buffered(number),
        }
    }
}
