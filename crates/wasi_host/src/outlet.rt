ghost use Rattle.std.specs.Prelude.{◌≡◌};
ghost use Rattle.wasi_streams.specs.Outputs.{after_all_written, after_part_written, after_flushed, after_stdio_write, file_check_write, file_write, file_flush, file_poll_write, file_poll_flush, stdio_check_write, stdio_write, stdio_flush, stdio_poll_write, stdio_poll_flush};

use bytes::Bytes;
use std::marker::Model;
use wasi_base::{MemSink, Polled, StreamError};
use wasi_streams::{OutputFile, OutputStream, StdioOutputStream};

/// A file that is written, in memory. Contracts see what its sink took and what limits it has left.
#[derive(Drop)]
pub struct FileOutput {
    file: OutputFile<MemSink>,
}

impl Model for FileOutput {
    ghost use Rattle.wasi_streams.specs.Outputs.{Outlet};

    ghost Value = { Outlet };

    ghost view = { λ f. record { taken = f.file.sink.taken; limits = f.file.sink.limits } };
}

impl FileOutput {
    pub fn new(sink: MemSink) -> FileOutput
        ensures { result ≡ record { taken = sink.taken; limits = sink.limits } }
    {
        FileOutput {
            file: OutputFile::new(sink),
        }
    }

    /// All bytes that went out, in order.
    pub fn taken(&self) -> &[u8]
        ensures { result.now ≡ self.now.taken }
    {
        self.file.sink().taken()
    }

    pub fn check_write(&mut self) -> Result<u64, StreamError>
        ensures answer { result ≡ file_check_write }
        ensures same { self.new ≡ self.old }
    {
        self.file.check_write()
    }

    pub fn write(&mut self, bytes: Bytes) -> Result<(), StreamError>
        ensures answer { result ≡ file_write self.old bytes }
        ensures after { self.new ≡ after_all_written self.old bytes }
    {
        self.file.write(bytes)
    }

    pub fn flush(&mut self) -> Result<(), StreamError>
        ensures answer { result ≡ file_flush self.old }
        ensures after { self.new ≡ after_flushed self.old }
    {
        self.file.flush()
    }

    pub fn poll_write(&mut self, piece: &[u8]) -> Polled<u64>
        ensures answer { result ≡ file_poll_write self.old piece.now }
        ensures after { self.new ≡ after_all_written self.old piece.now }
    {
        self.file.poll_write(piece)
    }

    pub fn poll_flush(&mut self) -> Polled<()>
        ensures answer { result ≡ file_poll_flush self.old }
        ensures after { self.new ≡ after_flushed self.old }
    {
        self.file.poll_flush()
    }
}

/// An output of the host's process, in memory. Contracts see what its sink took and what limits it
/// has left.
#[derive(Drop)]
pub struct ProcessOutput {
    output: StdioOutputStream<MemSink>,
}

impl Model for ProcessOutput {
    ghost use Rattle.wasi_streams.specs.Outputs.{Outlet};

    ghost Value = { Outlet };

    ghost view = { λ p. record { taken = p.output.sink.taken; limits = p.output.sink.limits } };
}

impl ProcessOutput {
    pub fn new(sink: MemSink) -> ProcessOutput
        ensures { result ≡ record { taken = sink.taken; limits = sink.limits } }
    {
        ProcessOutput {
            output: StdioOutputStream::new(sink),
        }
    }

    /// All bytes that went out, in order.
    pub fn taken(&self) -> &[u8]
        ensures { result.now ≡ self.now.taken }
    {
        self.output.sink().taken()
    }

    pub fn check_write(&mut self) -> Result<u64, StreamError>
        ensures answer { result ≡ stdio_check_write }
        ensures same { self.new ≡ self.old }
    {
        self.output.check_write()
    }

    pub fn write(&mut self, bytes: Bytes) -> Result<(), StreamError>
        ensures answer { result ≡ stdio_write self.old bytes }
        ensures after { self.new ≡ after_stdio_write self.old bytes }
    {
        self.output.write(bytes)
    }

    pub fn flush(&mut self) -> Result<(), StreamError>
        ensures answer { result ≡ stdio_flush self.old }
        ensures after { self.new ≡ after_flushed self.old }
    {
        self.output.flush()
    }

    pub fn poll_write(&mut self, piece: &[u8]) -> Polled<u64>
        ensures answer { result ≡ stdio_poll_write self.old piece.now }
        ensures after { self.new ≡ after_part_written self.old piece.now }
    {
        self.output.poll_write(piece)
    }

    pub fn poll_flush(&mut self) -> Polled<()>
        ensures answer { result ≡ stdio_poll_flush self.old }
        ensures after { self.new ≡ after_flushed self.old }
    {
        self.output.poll_flush()
    }
}
