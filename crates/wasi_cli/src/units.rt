ghost use Rattle.std.specs.Prelude.{false};
ghost use Rattle.wasi_cli.specs.Kinds.{in_polled, in_p2, out_polled, out_p2};
ghost use Rattle.wasi_cli.specs.declared.kinds.InKind.TheVariants as input;
ghost use Rattle.wasi_cli.specs.declared.kinds.OutKind.TheVariants as output;

use crate::{IsTerminal, P2In, P2Out, PolledIn, PolledOut, StdinStream, StdoutStream};

/// The input that guests share.
#[derive(Clone, Copy, Debug, PartialEq, Eq, Drop)]
pub struct Stdin {
    pub terminal: bool,
}

/// A standard output of the process, by its number.
#[derive(Clone, Copy, Debug, PartialEq, Eq, Drop)]
pub struct Stdout {
    pub number: u32,
    pub terminal: bool,
}

/// A standard error of the process, by its number.
#[derive(Clone, Copy, Debug, PartialEq, Eq, Drop)]
pub struct Stderr {
    pub number: u32,
    pub terminal: bool,
}

/// An input with no bytes, and an output that takes all bytes and keeps none.
#[derive(Clone, Copy, Debug, PartialEq, Eq, Drop)]
pub struct Empty;

/// An input that a task reads ahead, by its number.
#[derive(Clone, Copy, Debug, PartialEq, Eq, Drop)]
pub struct AsyncStdinStream(pub u32);

/// An output that a task writes out, by its number.
#[derive(Clone, Copy, Debug, PartialEq, Eq, Drop)]
pub struct AsyncStdoutStream(pub u32);

impl IsTerminal for Stdin {
    ghost terminal = { λ stream. stream.terminal };

    fn is_terminal(&self) -> bool {
        self.terminal
    }
}

impl StdinStream for Stdin {
    ghost polled = { λ stream. in_polled (input.Shared stream.terminal) };

    ghost p2 = { λ stream. in_p2 (input.Shared stream.terminal) };

    fn async_stream(&self) -> PolledIn {
        PolledIn::Shared
    }

    fn p2_stream(&self) -> P2In {
        P2In::Shared
    }
}

impl IsTerminal for Stdout {
    ghost terminal = { λ stream. stream.terminal };

    fn is_terminal(&self) -> bool {
        self.terminal
    }
}

impl StdoutStream for Stdout {
    ghost polled = { λ stream. out_polled (output.Stdio stream.number stream.terminal) };

    ghost p2 = { λ stream. out_p2 (output.Stdio stream.number stream.terminal) };

    fn async_stream(&self) -> PolledOut {
        PolledOut::Stdio(self.number)
    }

    fn p2_stream(&self) -> P2Out {
        P2Out::Stdio(self.number)
    }
}

impl IsTerminal for Stderr {
    ghost terminal = { λ stream. stream.terminal };

    fn is_terminal(&self) -> bool {
        self.terminal
    }
}

impl StdoutStream for Stderr {
    ghost polled = { λ stream. out_polled (output.Stdio stream.number stream.terminal) };

    ghost p2 = { λ stream. out_p2 (output.Stdio stream.number stream.terminal) };

    fn async_stream(&self) -> PolledOut {
        PolledOut::Stdio(self.number)
    }

    fn p2_stream(&self) -> P2Out {
        P2Out::Stdio(self.number)
    }
}

impl IsTerminal for Empty {
    ghost terminal = { λ _. false };

    fn is_terminal(&self) -> bool {
        false
    }
}

impl StdinStream for Empty {
    ghost polled = { λ _. in_polled input.Empty };

    ghost p2 = { λ _. in_p2 input.Empty };

    fn async_stream(&self) -> PolledIn {
        PolledIn::Empty
    }

    fn p2_stream(&self) -> P2In {
        P2In::Closed
    }
}

impl StdoutStream for Empty {
    ghost polled = { λ _. out_polled output.Empty };

    ghost p2 = { λ _. out_p2 output.Empty };

    fn async_stream(&self) -> PolledOut {
        PolledOut::Empty
    }

    fn p2_stream(&self) -> P2Out {
        P2Out::Sink
    }
}

impl IsTerminal for AsyncStdinStream {
    ghost terminal = { λ _. false };

    fn is_terminal(&self) -> bool {
        false
    }
}

impl StdinStream for AsyncStdinStream {
    ghost polled = { λ stream. in_polled (input.Async stream.0) };

    ghost p2 = { λ stream. in_p2 (input.Async stream.0) };

    fn async_stream(&self) -> PolledIn {
        PolledIn::Async(self.0)
    }

    fn p2_stream(&self) -> P2In {
        P2In::Async(self.0)
    }
}

impl IsTerminal for AsyncStdoutStream {
    ghost terminal = { λ _. false };

    fn is_terminal(&self) -> bool {
        false
    }
}

impl StdoutStream for AsyncStdoutStream {
    ghost polled = { λ stream. out_polled (output.Buffered stream.0) };

    ghost p2 = { λ stream. out_p2 (output.Buffered stream.0) };

    fn async_stream(&self) -> PolledOut {
        PolledOut::Buffered(self.0)
    }

    fn p2_stream(&self) -> P2Out {
        P2Out::Buffered(self.0)
    }
}
