ghost use Rattle.std.specs.Prelude.{◌≡◌, ◌<◌, IfOk, OnErr};
ghost use Rattle.wasi_streams.specs.Answers.{OnNoMemory, UnlessNoMemory};
ghost use Rattle.wasi_streams.specs.Reader.{new_reader, after_reader_read, reader_is_ready};
ghost use Rattle.wasi_streams.specs.Writer.{new_writer, after_writer_check_write, after_writer_write, after_writer_flush, writer_is_ready};
ghost use Rattle.wasi_cli.specs.StdoutPolls.{write_poll, flush_poll};
ghost use Rattle.wasi_host.specs.Tasks.{read_told, write_told, reader_turned, writer_turned};
ghost use Rattle.wasi_host.specs.Turns.{untaken, after_plain, shared_read, shared_skip, shared_check_write, shared_write, shared_flush, shared_poll_read, is_ready_in, block_in, turn_after_block, after_block, turn_without, without_leaver, undone};

use crate::Leaver;
use bytes::Bytes;
use std::alloc::Global;
use std::marker::Model;
use wasi_base::{MemSink, MemSource, OutOfMemory, Polled, StreamError};
use wasi_cli::{
    Owner, StdioHandle, StdoutHandle, Turns, shared_check_write, shared_flush, shared_read,
    shared_skip, shared_write,
};
use wasi_reply::Worked;
use wasi_streams::{AsyncReadStream, AsyncWriteStream, Pollable, ReaderTurn, WriterTurn};

/// A file in memory that a task reads ahead, for entries that take turns. Contracts see whose turn
/// it is, what its source tells, and what of it was read and not yet handed out.
#[derive(Drop)]
pub struct AsyncInput {
    stream: AsyncReadStream<MemSource>,
    turns: Turns,
}

impl Model for AsyncInput {
    ghost use Rattle.wasi_base.specs.Source.{Told};
    ghost use Rattle.wasi_streams.specs.Reader.{Reader};
    ghost use Rattle.wasi_host.specs.Sources.{told_reader};
    ghost use Rattle.wasi_host.specs.Turns.{InTurn};

    ghost Value = { InTurn (Reader Told) };

    ghost view = { λ input. record { turn = input.turns; stream = told_reader input.stream } };
}

// gives the turn up again that a call took which found no memory
fn undo(turns: &mut Turns, before: Option<Owner>, who: Owner)
    ensures { turns.new ≡ undone turns.old before who }
{
    if before.is_none() {
        turns.free(who);
    }
}

// nobody has the turn, and the stream is ready
fn ready(turns: &Turns, is_ready: bool) -> bool
    ensures { result ≡ is_ready_in turns.now is_ready }
{
    turns.holder().is_none() && is_ready
}

// asks for the turn, and gives it on where the stream is ready
fn block(turns: &mut Turns, who: Owner, is_ready: bool) -> Result<bool, OutOfMemory>
    ensures answer { IfOk result (λ over. over ≡ block_in turns.old is_ready who) }
    ensures after { IfOk result (λ over. turns.new ≡ turn_after_block turns.old is_ready who) }
    ensures memory { OnErr result (turns.new ≡ turns.old) }
{
    let granted = turns.ask(who)?;
    let over = granted && is_ready;
    if over {
        turns.free(who);
    }
    Ok(over)
}

fn leave(turns: &mut Turns, who: Leaver)
    ensures { turns.new ≡ turn_without who turns.old }
{
    match who {
        Leaver::Entry(who) => turns.free(who),
        Leaver::Guest(guest) => turns.free_guest(guest),
    }
}

impl AsyncInput {
    /// Nothing read yet, and nobody's turn. Takes the memory of what is read ahead.
    pub fn new(alloc: Global, source: MemSource) -> Result<AsyncInput, OutOfMemory>
        ensures { IfOk result (λ input. input ≡ untaken (new_reader source.told)) }
    {
        let stream = AsyncReadStream::new(alloc, source)?;
        let turns = Turns::new(alloc);
        Ok(AsyncInput { stream, turns })
    }

    /// Traps while anybody has the turn.
    pub fn read(&mut self, alloc: Global, size: u64) -> Result<Bytes, StreamError>
        ensures read { UnlessNoMemory result ((result ≡ shared_read self.old size) × (self.new ≡ after_plain self.old (after_reader_read self.old.stream size))) }
        ensures memory { OnNoMemory result (self.new ≡ self.old) }
    {
        shared_read(alloc, &self.turns, &mut self.stream, size)
    }

    /// Traps while anybody has the turn.
    pub fn skip(&mut self, size: u64) -> Result<u64, StreamError>
        ensures answer { result ≡ shared_skip self.old size }
        ensures after { self.new ≡ after_plain self.old (after_reader_read self.old.stream size) }
    {
        shared_skip(&self.turns, &mut self.stream, size)
    }

    /// A poll of an entry's handle. Out of memory leaves the input and its turn as they were.
    pub fn poll_read(
        &mut self,
        alloc: Global,
        who: Owner,
        handle: &mut StdioHandle,
        room: u64,
    ) -> Result<Polled<Bytes>, OutOfMemory>
        ensures poll { IfOk result (λ answer. record { answer = answer; handle = handle.new; turn = self.new.turn; stream = self.new.stream } ≡ shared_poll_read handle.old who self.old room) }
        ensures memory { OnErr result (self.new ≡ self.old) }
    {
        let holder = self.turns.holder();
        match handle.poll_read(alloc, who, &mut self.turns, &mut self.stream, room) {
            Ok(answer) => Ok(answer),
            Err(error) => {
                undo(&mut self.turns, holder, who);
                Err(error)
            }
        }
    }

    /// Whether a pollable of it is ready: nobody has the turn, and the input is ready.
    pub fn ready(&mut self) -> bool
        ensures answer { result ≡ is_ready_in self.old.turn (reader_is_ready self.old.stream) }
        ensures same { self.new ≡ self.old }
    {
        let is_ready = self.stream.ready();
        ready(&self.turns, is_ready)
    }

    /// A block of a pollable, which asks for the turn, and gives it on once the input is ready. Out
    /// of memory changes nothing.
    pub fn block(&mut self, who: Owner) -> Result<bool, OutOfMemory>
        ensures answer { IfOk result (λ over. over ≡ block_in self.old.turn (reader_is_ready self.old.stream) who) }
        ensures after { IfOk result (λ over. self.new ≡ after_block self.old (reader_is_ready self.old.stream) who) }
        ensures memory { OnErr result (self.new ≡ self.old) }
    {
        let is_ready = self.stream.ready();
        block(&mut self.turns, who, is_ready)
    }

    /// Who leaves has no turn on it any more, and waits for none.
    pub fn leave(&mut self, who: Leaver)
        ensures { self.new ≡ without_leaver who self.old }
    {
        leave(&mut self.turns, who);
    }

    /// A turn of its task.
    pub fn turn(&mut self) -> Worked
        ensures told { result ≡ (reader_turned self.old.stream).told }
        ensures left { self.new ≡ record self.old { stream = (reader_turned self.old.stream).left } }
    {
        read_told(self.stream.turn())
    }
}

/// A file in memory that is written from a buffer by a task, for entries that take turns. Contracts
/// see whose turn it is, what its sink took, what limits that has left, and what is buffered.
#[derive(Drop)]
pub struct BufferedOutput {
    stream: AsyncWriteStream<MemSink>,
    turns: Turns,
}

impl Model for BufferedOutput {
    ghost use Rattle.wasi_streams.specs.Outputs.{Outlet};
    ghost use Rattle.wasi_streams.specs.Writer.{Writer};
    ghost use Rattle.wasi_host.specs.Sources.{told_writer};
    ghost use Rattle.wasi_host.specs.Turns.{InTurn};

    ghost Value = { InTurn (Writer Outlet) };

    ghost view = { λ output. record { turn = output.turns; stream = told_writer output.stream } };
}

impl BufferedOutput {
    /// Nothing buffered, and nobody's turn. Takes the memory of all writes.
    pub fn new(alloc: Global, budget: u64, sink: MemSink) -> Result<BufferedOutput, OutOfMemory>
        requires { 0 < budget }
        ensures { IfOk result (λ output. output ≡ untaken (new_writer budget (record { taken = sink.taken; limits = sink.limits }))) }
    {
        let stream = AsyncWriteStream::new(alloc, budget, sink)?;
        let turns = Turns::new(alloc);
        Ok(BufferedOutput { stream, turns })
    }

    /// All bytes that went to its sink, in order.
    pub fn taken(&self) -> &[u8]
        ensures { result.now ≡ self.now.stream.sink.taken }
    {
        self.stream.sink().taken()
    }

    /// Traps while anybody has the turn.
    pub fn check_write(&mut self) -> Result<u64, StreamError>
        ensures answer { result ≡ shared_check_write self.old }
        ensures after { self.new ≡ after_plain self.old (after_writer_check_write self.old.stream) }
    {
        shared_check_write(&self.turns, &mut self.stream)
    }

    /// Traps while anybody has the turn.
    pub fn write(&mut self, bytes: Bytes) -> Result<(), StreamError>
        ensures answer { result ≡ shared_write self.old bytes }
        ensures after { self.new ≡ after_plain self.old (after_writer_write self.old.stream bytes) }
    {
        shared_write(&self.turns, &mut self.stream, bytes)
    }

    /// Traps while anybody has the turn.
    pub fn flush(&mut self) -> Result<(), StreamError>
        ensures answer { result ≡ shared_flush self.old }
        ensures after { self.new ≡ after_plain self.old (after_writer_flush self.old.stream) }
    {
        shared_flush(&self.turns, &mut self.stream)
    }

    /// A poll of an entry's handle. Out of memory leaves the output and its turn as they were.
    pub fn poll_write(
        &mut self,
        alloc: Global,
        who: Owner,
        handle: &mut StdoutHandle,
        piece: &[u8],
    ) -> Result<Polled<u64>, OutOfMemory>
        ensures poll { IfOk result (λ answer. record { answer = answer; handle = handle.new; turn = self.new.turn; stream = self.new.stream } ≡ write_poll handle.old who self.old.turn self.old.stream piece.now) }
        ensures memory { OnErr result (self.new ≡ self.old) }
    {
        let holder = self.turns.holder();
        match handle.poll_write(alloc, who, &mut self.turns, &mut self.stream, piece) {
            Ok(answer) => Ok(answer),
            Err(error) => {
                undo(&mut self.turns, holder, who);
                Err(error)
            }
        }
    }

    /// A poll of an entry's handle. Out of memory changes nothing.
    pub fn poll_flush(
        &mut self,
        who: Owner,
        handle: &mut StdoutHandle,
    ) -> Result<Polled<()>, OutOfMemory>
        ensures poll { IfOk result (λ answer. record { answer = answer; handle = handle.new; turn = self.new.turn; stream = self.new.stream } ≡ flush_poll handle.old who self.old.turn self.old.stream) }
        ensures memory { OnErr result (self.new ≡ self.old) }
    {
        handle.poll_flush(who, &mut self.turns, &mut self.stream)
    }

    /// Whether a pollable of it is ready: nobody has the turn, and the output is ready.
    pub fn ready(&mut self) -> bool
        ensures answer { result ≡ is_ready_in self.old.turn (writer_is_ready self.old.stream) }
        ensures same { self.new ≡ self.old }
    {
        let is_ready = self.stream.ready();
        ready(&self.turns, is_ready)
    }

    /// A block of a pollable, which asks for the turn, and gives it on once the output is ready. Out
    /// of memory changes nothing.
    pub fn block(&mut self, who: Owner) -> Result<bool, OutOfMemory>
        ensures answer { IfOk result (λ over. over ≡ block_in self.old.turn (writer_is_ready self.old.stream) who) }
        ensures after { IfOk result (λ over. self.new ≡ after_block self.old (writer_is_ready self.old.stream) who) }
        ensures memory { OnErr result (self.new ≡ self.old) }
    {
        let is_ready = self.stream.ready();
        block(&mut self.turns, who, is_ready)
    }

    /// Who leaves has no turn on it any more, and waits for none.
    pub fn leave(&mut self, who: Leaver)
        ensures { self.new ≡ without_leaver who self.old }
    {
        leave(&mut self.turns, who);
    }

    /// A turn of its task.
    pub fn turn(&mut self) -> Worked
        ensures told { result ≡ (writer_turned self.old.stream).told }
        ensures left { self.new ≡ record self.old { stream = (writer_turned self.old.stream).left } }
    {
        write_told(self.stream.turn())
    }
}

fn read_told(turn: ReaderTurn) -> Worked
    ensures { result ≡ read_told turn }
{
    match turn {
        ReaderTurn::Gave(count) => Worked::Gave(count as usize),
        ReaderTurn::End => Worked::End,
        ReaderTurn::Fault(kind) => Worked::Fault(kind),
        ReaderTurn::Idle => Worked::Idle,
    }
}

fn write_told(turn: WriterTurn) -> Worked
    ensures { result ≡ write_told turn }
{
    match turn {
        WriterTurn::Took(count) => Worked::Took(count as usize),
        WriterTurn::Flushed => Worked::Flushed,
        WriterTurn::Fault(kind) => Worked::Fault(kind),
        WriterTurn::Idle => Worked::Idle,
    }
}
