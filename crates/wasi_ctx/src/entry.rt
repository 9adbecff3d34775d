use wasi_cli::{P2In, P2Out, PolledIn, PolledOut, StdioHandle, StdoutHandle};
use wasi_clocks::{Deadline, Wait3};
use wasi_fs::Descriptor;
use wasi_stdin::Wait;
use wasi_table::{Kinded, ResourceTable};

/// An input that is read by polls.
#[derive(Drop)]
pub struct PolledInput {
    pub stream: PolledIn,
    /// Where the stream is shared by turns, how far this entry is with its turn.
    pub handle: StdioHandle,
    /// Where the stream is the shared input, the delivery that this entry waits for.
    pub wait: Wait,
}

/// An output that is written by polls.
#[derive(Drop)]
pub struct PolledOutput {
    pub stream: PolledOut,
    /// Where the stream is shared by turns, how far this entry is with its turn.
    pub handle: StdoutHandle,
}

/// What stands at a number of a guest's table.
#[derive(Drop)]
pub enum Entry {
    /// An input that is read by calls that answer at once.
    Input(P2In),
    /// An output that is written by calls that answer at once.
    Output(P2Out),
    /// A terminal that is an input.
    TerminalInput,
    /// A terminal that is an output.
    TerminalOutput,
    PolledInput(PolledInput),
    PolledOutput(PolledOutput),
    /// Tells whether the input or output that is its parent is ready.
    Pollable(Wait),
    /// Tells whether a time has come.
    Deadline(Deadline),
    /// The same in WASI 0.3.
    Wait(Wait3),
    /// An open file or directory.
    Descriptor(Descriptor),
}

/// The entries of a guest, by number.
pub type Table = ResourceTable<Entry>;

impl Entry {
    pub const INPUT: u32 = 0;

    pub const OUTPUT: u32 = 1;

    pub const TERMINAL_INPUT: u32 = 2;

    pub const TERMINAL_OUTPUT: u32 = 3;

    pub const POLLED_INPUT: u32 = 4;

    pub const POLLED_OUTPUT: u32 = 5;

    pub const POLLABLE: u32 = 6;

    pub const DEADLINE: u32 = 7;

    pub const WAIT: u32 = 8;

    pub const DESCRIPTOR: u32 = 9;
}

impl Kinded for Entry {
    ghost use Rattle.wasi_ctx.specs.Entries.{kind_of};

    ghost kind_number = { λ entry. kind_of entry };

    fn kind(&self) -> u32 {
        match self {
            Entry::Input(_) => Entry::INPUT,
            Entry::Output(_) => Entry::OUTPUT,
            Entry::TerminalInput => Entry::TERMINAL_INPUT,
            Entry::TerminalOutput => Entry::TERMINAL_OUTPUT,
            Entry::PolledInput(_) => Entry::POLLED_INPUT,
            Entry::PolledOutput(_) => Entry::POLLED_OUTPUT,
            Entry::Pollable(_) => Entry::POLLABLE,
            Entry::Deadline(_) => Entry::DEADLINE,
            Entry::Wait(_) => Entry::WAIT,
            Entry::Descriptor(_) => Entry::DESCRIPTOR,
        }
    }
}
