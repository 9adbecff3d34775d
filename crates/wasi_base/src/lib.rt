//! What every crate of the host speaks of: where bytes come from and go to, and the errors.
#![tactic(auto)]

mod clean_source;
mod exit;
mod io_kind;
mod memory_sink;
mod memory_source;
mod out_of_memory;
mod polled;
mod sink;
mod source;
mod standard;
mod stream_error;
#[cfg(test)]
mod tests;
mod text;
mod trap_text;
mod trappable;

pub use clean_source::CleanSource;
pub use exit::I32Exit;
pub use io_kind::IoKind;
pub use memory_sink::MemSink;
pub use memory_source::MemSource;
pub use out_of_memory::OutOfMemory;
pub use polled::Polled;
pub use sink::{Sink, SinkPlan, WriteStop, write_all};
pub use source::{Plan, Source};
pub use standard::{FileSink, FileSource, StdSink, StdSource};
pub use stream_error::{StreamError, stream_error_from};
pub use text::Text;
pub use trap_text::TrapText;
pub use trappable::{TrappableError, Trapped};
