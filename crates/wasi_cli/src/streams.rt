ghost use Rattle.std.specs.Prelude.{◌≡◌, Bool};

/// The stream that a read or skip of a guest goes to.
#[derive(Clone, Copy, Debug, PartialEq, Eq, Drop)]
pub enum P2In {
    Shared,
    Closed,
    Pipe(u32),
    File(u32),
    Async(u32),
}

/// The stream that a polled read of a guest goes to.
#[derive(Clone, Copy, Debug, PartialEq, Eq, Drop)]
pub enum PolledIn {
    Shared,
    Empty,
    Pipe(u32),
    File(u32),
    Async(u32),
}

/// The stream that a check of the room, a write or a flush of a guest goes to.
#[derive(Clone, Copy, Debug, PartialEq, Eq, Drop)]
pub enum P2Out {
    Sink,
    Closed,
    Pipe(u32),
    File(u32),
    Stdio(u32),
    Buffered(u32),
}

/// The stream that a polled write or flush of a guest goes to.
#[derive(Clone, Copy, Debug, PartialEq, Eq, Drop)]
pub enum PolledOut {
    Empty,
    Closed,
    Pipe(u32),
    File(u32),
    Stdio(u32),
    Buffered(u32),
}

/// A standard stream that may be a terminal.
pub trait IsTerminal {
    ghost terminal: { Self → Bool };

    fn is_terminal(&self) -> bool
        ensures { result ≡ terminal self.now };
}

/// What can be a guest's standard input.
pub trait StdinStream: IsTerminal + Send {
    ghost use Rattle.wasi_cli.specs.declared.streams.PolledIn.{PolledIn};
    ghost use Rattle.wasi_cli.specs.declared.streams.P2In.{P2In};

    ghost polled: { Self → PolledIn };

    ghost p2: { Self → P2In };

    /// The stream of polled reads.
    fn async_stream(&self) -> PolledIn
        ensures { result ≡ polled self.now };

    /// The stream of reads and skips.
    fn p2_stream(&self) -> P2In
        ensures { result ≡ p2 self.now };
}

/// What can be a guest's standard output or standard error.
pub trait StdoutStream: IsTerminal + Send {
    ghost use Rattle.wasi_cli.specs.declared.streams.PolledOut.{PolledOut};
    ghost use Rattle.wasi_cli.specs.declared.streams.P2Out.{P2Out};

    ghost polled: { Self → PolledOut };

    ghost p2: { Self → P2Out };

    /// The stream of polled writes and flushes.
    fn async_stream(&self) -> PolledOut
        ensures { result ≡ polled self.now };

    /// The stream of checks, writes and flushes.
    fn p2_stream(&self) -> P2Out
        ensures { result ≡ p2 self.now };
}
