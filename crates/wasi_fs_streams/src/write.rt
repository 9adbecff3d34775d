ghost use Rattle.std.specs.Prelude.{◌≡◌, ◌≤◌, ℕ, length, take, option_map, IfOk, OnErr, Err, None};
ghost use Rattle.wasi_base.specs.Causes.{Rose};
ghost use Rattle.wasi_fs.specs.Stores.{write_of, taken, after_write};
ghost use Rattle.wasi_fs_streams.specs.WriteStreams.{next_place, written, write_waits, consumed_by_task, work_left, write_polled, write_turned, write_finished, write_made, write_made_in_turn, write_left, after_write_made, OnFault, OnFaultMade, WritesFile, write_closed, write_sent};
ghost use Rattle.wasi_fs_streams.specs.declared.write.WriteStreamConsumer.TheVariants.{Open, Ended};
ghost use Rattle.wasi_producers.specs.Outputs.{consumed};

use crate::task::{TASK_BYTES, Task, TaskTurn};
use bytes::Bytes;
use std::alloc::Global;
use wasi_base::OutOfMemory;
use wasi_fs::{At, File, Store, StoreError};
use wasi_fs_types::ErrorCode;
use wasi_producers::{Consumed, StreamResult};

/// A task that writes a piece of its own to a file, at its stream's place.
pub type WriteTask = Task<Bytes, Result<u64, ErrorCode>>;

/// A stream of bytes that a guest gives into a file. Where the file is open to block, each poll
/// writes at once; else a poll makes a task with a copy of the piece, whose turns do the write, and
/// a later poll takes what was written.
#[derive(Drop)]
pub enum WriteStreamConsumer {
    /// The next write is to this file, at this place.
    Open {
        file: File,
        location: At,
        /// The task that stands. The blocking path makes none.
        task: Option<WriteTask>,
    },
    /// The stream ended, with the one result that is sent.
    Ended(Result<(), ErrorCode>),
}

fn consumed(answer: StreamResult, taken: u64) -> Consumed
    ensures { result ≡ consumed answer taken }
{
    Consumed {
        result: answer,
        taken,
    }
}

// where the next write goes, unless that is past the greatest number
fn next_place(location: At, count: u64) -> Option<At>
    ensures { result ≡ next_place location count }
{
    match location {
        At::End => Some(At::End),
        At::Offset(offset) => match offset.checked_add(count) {
            Some(offset) => Some(At::Offset(offset)),
            None => None,
        },
    }
}

// one write of a store, of the whole piece
fn send<T: Store>(
    store: &mut T,
    file: u64,
    location: At,
    piece: &[u8],
) -> Result<Result<u64, ErrorCode>, OutOfMemory>
    requires { T.is_file store.old file }
    ensures takes { IfOk result (λ outcome. outcome ≡ taken (write_of (T.told store.old) (T.contents store.old file) location piece.now) (length piece.now)) }
    ensures leaves { IfOk result (λ outcome. store.new ≡ after_write T.met (T.with_contents store.old file) store.old (write_of (T.told store.old) (T.contents store.old file) location piece.now)) }
    ensures cause { IfOk result (λ outcome. OnFault (write_of (T.told store.old) (T.contents store.old file) location piece.now) (Rose (T.told store.old).faults (T.told store.new).faults)) }
    ensures files { (f : ℕ) → T.is_file store.old f → T.is_file store.new f }
    ensures later { (T.told store.old).faults ≤ (T.told store.new).faults }
    ensures memory { OnErr result (store.new ≡ store.old) }
{
    match store.write_at(file, location, piece) {
        Ok(count) => Ok(Ok(count as u64)),
        Err(StoreError::Code(code)) => Ok(Err(code)),
        Err(StoreError::OutOfMemory) => Err(OutOfMemory),
    }
}

// what comes of a write
fn written(
    file: File,
    location: At,
    outcome: Result<u64, ErrorCode>,
) -> (Consumed, WriteStreamConsumer)
    ensures { result ≡ written file location outcome }
{
    let taken = match outcome {
        Ok(taken) => taken,
        Err(code) => {
            return (
                consumed(StreamResult::Dropped, 0),
                WriteStreamConsumer::ended(code),
            );
        }
    };
    match next_place(location, taken) {
        Some(location) => (
            consumed(StreamResult::Completed, taken),
            WriteStreamConsumer::new(file, location),
        ),
        None => (
            consumed(StreamResult::Dropped, taken),
            WriteStreamConsumer::ended(ErrorCode::Overflow),
        ),
    }
}

// a copy of the bytes that one task writes
#[tactic(auto, using(std::proofs::lemmas::List::take_min))]
fn copied(alloc: Global, piece: &[u8]) -> Result<Bytes, OutOfMemory>
    ensures { IfOk result (λ bytes. bytes ≡ take 8192 piece.now) }
{
    let count = TASK_BYTES.min(piece.len());
    match Bytes::copy_from_slice(alloc, &piece[..count]) {
        Ok(bytes) => Ok(bytes),
        Err(_) => Err(OutOfMemory),
    }
}

// a task that was not started stands with its piece, unless the poll is to finish
fn write_waits(
    file: File,
    location: At,
    piece: Bytes,
    finish: bool,
) -> (Consumed, WriteStreamConsumer)
    ensures { result ≡ write_waits finish file location piece }
{
    if finish {
        let after = WriteStreamConsumer::new(file, location);
        return (consumed(StreamResult::Cancelled, 0), after);
    }
    let after = WriteStreamConsumer::Open {
        file,
        location,
        task: Some(Task::NotStarted(piece)),
    };
    (consumed(StreamResult::Pending, 0), after)
}

// a poll on the task path
fn consumed_by_task(
    alloc: Global,
    file: File,
    location: At,
    task: Option<WriteTask>,
    piece: &[u8],
    finish: bool,
) -> Result<(Consumed, WriteStreamConsumer), OutOfMemory>
    ensures polled { IfOk result (λ p. p ≡ consumed_by_task piece.now finish file location task) }
    ensures memory { OnErr result (task ≡ None) }
{
    match task {
        Some(Task::Done(outcome)) => Ok(written(file, location, outcome)),
        Some(Task::Running(kept)) => {
            let after = WriteStreamConsumer::Open {
                file,
                location,
                task: Some(Task::Running(kept)),
            };
            Ok((consumed(StreamResult::Pending, 0), after))
        }
        Some(Task::NotStarted(kept)) => Ok(write_waits(file, location, kept, finish)),
        None => match copied(alloc, piece) {
            Ok(copy) => Ok(write_waits(file, location, copy, finish)),
            Err(error) => Err(error),
        },
    }
}

// the piece of a task that is not done
fn piece_left(task: &Option<WriteTask>) -> Option<&Bytes>
    ensures { option_map (λ piece. piece.now) result ≡ work_left task.now }
{
    match task {
        Some(Task::NotStarted(piece)) => Some(piece),
        Some(Task::Running(piece)) => Some(piece),
        Some(Task::Done(_)) | None => None,
    }
}

impl WriteStreamConsumer {
    pub fn new(file: File, location: At) -> WriteStreamConsumer
        ensures { result ≡ Open file location None }
    {
        WriteStreamConsumer::Open {
            file,
            location,
            task: None,
        }
    }

    /// A stream that ended with this code, for a call that is refused.
    pub fn ended(code: ErrorCode) -> WriteStreamConsumer
        ensures { result ≡ Ended (Err code) }
    {
        WriteStreamConsumer::Ended(Err(code))
    }

    /// One poll. On the blocking path it is one write of the whole piece, also of one of no bytes.
    /// On the task path, where no task stands one is made, with a copy of the piece's first 8192
    /// bytes, and a poll of one that is not done is `Pending`; under `finish` one that was not
    /// started is taken away, and the poll is `Cancelled`. Of a task that is done, what it wrote is
    /// what this poll took, whatever piece it shows.
    ///
    /// A fault and a limit of the store end the stream with nothing taken, and an offset that would
    /// pass the greatest number ends it with the piece taken. A stream that ended takes nothing and
    /// stays as it is. Out of memory changes nothing.
    pub fn poll_consume<T: Store>(
        &mut self,
        alloc: Global,
        store: &mut T,
        piece: &[u8],
        finish: bool,
    ) -> Result<Consumed, OutOfMemory>
        requires { WritesFile (T.is_file store.old) self.old }
        ensures polled { IfOk result (λ c. write_polled (T.told store.old) (T.contents store.old) piece.now finish self.old ≡ (c, self.new)) }
        ensures leaves { IfOk result (λ c. store.new ≡ after_write_made T.met T.with_contents store.old self.old (write_made (T.told store.old) (T.contents store.old) piece.now self.old)) }
        ensures cause { IfOk result (λ c. OnFaultMade (write_made (T.told store.old) (T.contents store.old) piece.now self.old) (Rose (T.told store.old).faults (T.told store.new).faults)) }
        ensures files { (f : ℕ) → T.is_file store.old f → T.is_file store.new f }
        ensures goes_on { WritesFile (T.is_file store.new) self.new }
        ensures later { (T.told store.old).faults ≤ (T.told store.new).faults }
        ensures memory { OnErr result ((self.new ≡ self.old) × (store.new ≡ store.old)) }
    {
        let (file, location, task) = match self {
            WriteStreamConsumer::Open {
                file,
                location,
                task,
            } => (*file, *location, task),
            WriteStreamConsumer::Ended(_) => return Ok(consumed(StreamResult::Dropped, 0)),
        };
        if !file.blocking {
            return match consumed_by_task(alloc, file, location, task.take(), piece, finish) {
                Ok((answer, after)) => {
                    *self = after;
                    Ok(answer)
                }
                Err(error) => Err(error),
            };
        }
        match send(store, file.node, location, piece) {
            Ok(outcome) => {
                let (answer, after) = written(file, location, outcome);
                *self = after;
                Ok(answer)
            }
            Err(error) => Err(error),
        }
    }

    /// One turn of the task: the first starts it, and the second writes its piece at the stream's
    /// place. It is `Idle` where no task stands or it is done. Out of memory changes nothing, so
    /// that the next turn tries again.
    pub fn turn<T: Store>(&mut self, store: &mut T) -> Result<TaskTurn, OutOfMemory>
        requires { WritesFile (T.is_file store.old) self.old }
        ensures turned { IfOk result (λ t. write_turned (T.told store.old) (T.contents store.old) self.old ≡ (t, self.new)) }
        ensures leaves { IfOk result (λ t. store.new ≡ after_write_made T.met T.with_contents store.old self.old (write_made_in_turn (T.told store.old) (T.contents store.old) self.old)) }
        ensures cause { IfOk result (λ t. OnFaultMade (write_made_in_turn (T.told store.old) (T.contents store.old) self.old) (Rose (T.told store.old).faults (T.told store.new).faults)) }
        ensures files { (f : ℕ) → T.is_file store.old f → T.is_file store.new f }
        ensures goes_on { WritesFile (T.is_file store.new) self.new }
        ensures later { (T.told store.old).faults ≤ (T.told store.new).faults }
        ensures memory { OnErr result ((self.new ≡ self.old) × (store.new ≡ store.old)) }
    {
        let (file, location, task) = match self {
            WriteStreamConsumer::Open {
                file,
                location,
                task,
            } => (*file, *location, task),
            WriteStreamConsumer::Ended(_) => return Ok(TaskTurn::Idle),
        };
        match task.take() {
            Some(Task::NotStarted(piece)) => {
                *task = Some(Task::Running(piece));
                Ok(TaskTurn::Started)
            }
            Some(Task::Running(piece)) => match send(store, file.node, location, piece.as_slice()) {
                Ok(outcome) => {
                    *task = Some(Task::Done(outcome));
                    Ok(TaskTurn::Done)
                }
                Err(error) => {
                    *task = Some(Task::Running(piece));
                    Err(error)
                }
            },
            still => {
                *task = still;
                Ok(TaskTurn::Idle)
            }
        }
    }

    /// Does what is left of the task that stands, as its turns would, so that its bytes are written
    /// before the stream is closed or dropped. Out of memory changes nothing.
    pub fn finish_task<T: Store>(&mut self, store: &mut T) -> Result<(), OutOfMemory>
        requires { WritesFile (T.is_file store.old) self.old }
        ensures finished { IfOk result (λ done. self.new ≡ write_finished (T.told store.old) (T.contents store.old) self.old) }
        ensures leaves { IfOk result (λ done. store.new ≡ after_write_made T.met T.with_contents store.old self.old (write_left (T.told store.old) (T.contents store.old) self.old)) }
        ensures cause { IfOk result (λ done. OnFaultMade (write_left (T.told store.old) (T.contents store.old) self.old) (Rose (T.told store.old).faults (T.told store.new).faults)) }
        ensures files { (f : ℕ) → T.is_file store.old f → T.is_file store.new f }
        ensures goes_on { WritesFile (T.is_file store.new) self.new }
        ensures later { (T.told store.old).faults ≤ (T.told store.new).faults }
        ensures memory { OnErr result ((self.new ≡ self.old) × (store.new ≡ store.old)) }
    {
        let (file, location, task) = match self {
            WriteStreamConsumer::Open {
                file,
                location,
                task,
            } => (*file, *location, task),
            WriteStreamConsumer::Ended(_) => return Ok(()),
        };
        let piece = match piece_left(task) {
            Some(piece) => piece,
            None => return Ok(()),
        };
        match send(store, file.node, location, piece.as_slice()) {
            Ok(outcome) => {
                *task = Some(Task::Done(outcome));
                Ok(())
            }
            Err(error) => Err(error),
        }
    }

    /// Ends the stream, with Ok where no result was sent. A task that stands is gone.
    pub fn close(&mut self)
        ensures { self.new ≡ write_closed self.old }
    {
        match self {
            WriteStreamConsumer::Open { .. } => *self = WriteStreamConsumer::Ended(Ok(())),
            WriteStreamConsumer::Ended(_) => {}
        }
    }

    /// The result that was sent; none while the stream is open.
    pub fn result(&self) -> Option<Result<(), ErrorCode>>
        ensures { result ≡ write_sent self.now }
    {
        match self {
            WriteStreamConsumer::Open { .. } => None,
            WriteStreamConsumer::Ended(sent) => Some(*sent),
        }
    }
}
