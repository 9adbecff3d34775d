ghost use Rattle.std.specs.Prelude.{Some};
ghost use Rattle.wasi_base.specs.TrapText.{trap_text};

use std::fmt;

/// Why a guest is trapped. `Display` prints the text that its reply shows.
#[derive(Clone, Copy, Debug, PartialEq, Eq, Drop)]
pub enum TrapText {
    /// No entry of the table has this number.
    ResourceNotPresent,
    /// The entry is not of the kind that the call takes.
    ResourceWrongType,
    /// The entry has children that live.
    ResourceHasChildren,
    /// The table holds as many entries as its capacity.
    ResourceTableFull,
    /// More random bytes were asked for than the limit allows.
    RequestedLength { length: u64, limit: u64 },
    /// A time that the answer's type has no number for.
    NumberOutOfRange,
    SockRecvUnsupported,
    SockSendUnsupported,
    SockShutdownUnsupported,
    /// More bytes than the room that a pipe in memory has left.
    WriteBeyondCapacity,
    /// More bytes than the stream permits one write.
    WriteExceededBudget,
    /// The flush asked for before is not done yet.
    WriteWhileFlushPending,
    /// Another owner has the turn to read.
    ConcurrentReads,
    /// Another owner has the turn to read, and this call was to skip.
    ConcurrentSkips,
    /// Another owner has the turn to write, and this call was to check what it may write.
    ConcurrentCheckWrites,
    /// Another owner has the turn to write.
    ConcurrentWrites,
    /// Another owner has the turn to write, and this call was to flush.
    ConcurrentFlushes,
}

impl fmt::Display for TrapText {
    ghost output = { λ t. Some (trap_text t) };

    fn fmt<W: fmt::Write>(&self, f: &mut fmt::Formatter<W>) -> fmt::Result {
        match *self {
            TrapText::ResourceNotPresent => write!(f, "resource not present"),
            TrapText::ResourceWrongType => write!(f, "resource has another type"),
            TrapText::ResourceHasChildren => write!(f, "resource has children"),
            TrapText::ResourceTableFull => write!(f, "resource table is full"),
            TrapText::RequestedLength { length, limit } => {
                write!(f, "requested len {length} exceeds limit {limit}")
            }
            TrapText::NumberOutOfRange => write!(f, "number out of range"),
            TrapText::SockRecvUnsupported => write!(f, "sock_recv unsupported"),
            TrapText::SockSendUnsupported => write!(f, "sock_send unsupported"),
            TrapText::SockShutdownUnsupported => write!(f, "sock_shutdown unsupported"),
            TrapText::WriteBeyondCapacity => {
                write!(f, "write beyond capacity of MemoryOutputPipe")
            }
            TrapText::WriteExceededBudget => write!(f, "write exceeded budget"),
            TrapText::WriteWhileFlushPending => write!(f, "write while a flush is pending"),
            TrapText::ConcurrentReads => write!(f, "concurrent reads are not supported"),
            TrapText::ConcurrentSkips => write!(f, "concurrent skips are not supported"),
            TrapText::ConcurrentCheckWrites => write!(f, "concurrent writes are not supported"),
            TrapText::ConcurrentWrites => write!(f, "concurrent writes not supported yet"),
            TrapText::ConcurrentFlushes => write!(f, "concurrent flushes not supported yet"),
        }
    }
}

impl std::error::Error for TrapText {}
