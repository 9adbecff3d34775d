use crate::IoKind;

/// What one poll of a task gave.
#[derive(Clone, Copy, Debug, PartialEq, Eq, Drop)]
pub enum Polled<T> {
    /// Nothing yet.
    Pending,
    Ready(T),
    /// The source or the sink failed, and the task with it.
    Failed(IoKind),
}
