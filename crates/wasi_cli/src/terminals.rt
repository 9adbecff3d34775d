/// A terminal as a guest's input.
#[derive(Clone, Copy, Debug, PartialEq, Eq, Drop)]
pub struct TerminalInput;

/// A terminal as a guest's output.
#[derive(Clone, Copy, Debug, PartialEq, Eq, Drop)]
pub struct TerminalOutput;

/// Whether a stream is a terminal.
#[derive(Clone, Copy, Debug, PartialEq, Eq, Drop)]
pub enum IsATTY {
    Yes,
    No,
}
