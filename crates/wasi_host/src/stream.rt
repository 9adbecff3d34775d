ghost use Rattle.std.specs.Prelude.{◌≡◌, IfOk, OnErr};
ghost use Rattle.wasi_streams.specs.Answers.{OnNoMemory, UnlessNoMemory};
ghost use Rattle.wasi_streams.specs.Files.{file_read, after_file_read, file_skip, file_poll_read};
ghost use Rattle.wasi_host.specs.OutStreams.{taken_of};

use crate::outlet::{FileOutput, ProcessOutput};
use crate::tasks::{AsyncInput, BufferedOutput};
use bytes::Bytes;
use std::alloc::Global;
use std::marker::Model;
use wasi_base::{MemSource, OutOfMemory, Polled, StreamError};
use wasi_streams::{InputFile, InputStream, MemoryInputPipe, MemoryOutputPipe};

/// A file that is read, in memory. Contracts see what its source tells.
#[derive(Drop)]
pub struct FileInput {
    file: InputFile<MemSource>,
}

impl Model for FileInput {
    ghost use Rattle.wasi_base.specs.Source.{Told};

    ghost Value = { Told };

    ghost view = { λ f. f.file.source.told };
}

impl FileInput {
    pub fn new(source: MemSource) -> FileInput
        ensures { result ≡ source.told }
    {
        FileInput {
            file: InputFile::new(source),
        }
    }

    pub fn read(&mut self, alloc: Global, size: u64) -> Result<Bytes, StreamError>
        ensures read { UnlessNoMemory result ((result ≡ file_read self.old size) × (self.new ≡ after_file_read self.old size)) }
        ensures memory { OnNoMemory result (self.new ≡ self.old) }
    {
        self.file.read(alloc, size)
    }

    pub fn skip(&mut self, size: u64) -> Result<u64, StreamError>
        ensures answer { result ≡ file_skip self.old size }
        ensures after { self.new ≡ after_file_read self.old size }
    {
        self.file.skip(size)
    }

    pub fn poll_read(&mut self, alloc: Global, room: u64) -> Result<Polled<Bytes>, OutOfMemory>
        ensures read { IfOk result (λ polled. (polled ≡ file_poll_read self.old room) × (self.new ≡ after_file_read self.old room)) }
        ensures memory { OnErr result (self.new ≡ self.old) }
    {
        self.file.poll_read(alloc, room)
    }
}

/// What guests read that is not the shared input.
#[derive(Drop)]
pub enum InStream {
    /// An input at its end, which no line declares.
    Closed,
    /// `pipe`: the bytes that are left.
    Pipe(MemoryInputPipe),
    /// `infile`: a source with a plan.
    File(FileInput),
    /// `asyncin`: a source with a plan, which a task reads ahead.
    Async(AsyncInput),
}

/// What guests write to.
#[derive(Drop)]
pub enum OutStream {
    /// An output that takes nothing, which no line declares.
    Closed,
    /// An output that takes everything and keeps nothing, which no line declares.
    Sink,
    /// `outpipe`: what it took, and the room left.
    Pipe(MemoryOutputPipe),
    /// `outfile`: a sink with a plan.
    File(FileOutput),
    /// `stdio`: a sink with a plan, as an output of the host's process.
    Stdio(ProcessOutput),
    /// `buffered`: a sink with a plan, to which a task hands what is buffered.
    Buffered(BufferedOutput),
}

impl OutStream {
    /// All bytes that it took, or its sink, in order.
    pub fn taken(&self) -> &[u8]
        ensures { result.now ≡ taken_of self.now }
    {
        match self {
            OutStream::Pipe(pipe) => pipe.contents(),
            OutStream::File(file) => file.taken(),
            OutStream::Stdio(output) => output.taken(),
            OutStream::Buffered(output) => output.taken(),
            OutStream::Closed | OutStream::Sink => &[],
        }
    }
}
