//! The streams that a guest reads and writes: pipes in memory, files, standard outputs and those
//! that are closed or keep nothing.
#![tactic(auto)]

mod async_read;
mod async_write;
mod block;
mod closed;
mod input_file;
mod memory_input_pipe;
mod memory_output_pipe;
mod output_file;
mod reader_turn;
mod sink_output;
mod stdio_output;
mod streams;
#[cfg(test)]
mod tests;
mod writer_turn;

pub use async_read::AsyncReadStream;
pub use async_write::AsyncWriteStream;
pub use closed::{ClosedInputStream, ClosedOutputStream};
pub use input_file::InputFile;
pub use memory_input_pipe::MemoryInputPipe;
pub use memory_output_pipe::MemoryOutputPipe;
pub use output_file::OutputFile;
pub use reader_turn::ReaderTurn;
pub use sink_output::SinkOutputStream;
pub use stdio_output::StdioOutputStream;
pub use streams::{InputStream, OutputStream, Pollable};
pub use writer_turn::WriterTurn;
