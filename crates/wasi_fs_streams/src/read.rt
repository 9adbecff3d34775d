ghost use Rattle.std.specs.Prelude.{◌≡◌, ◌≤◌, ◌<◌, ◌^◌, ℕ, [], Ok, Err, length, IfOk, OnErr, Some, None};
ghost use Rattle.wasi_base.specs.Causes.{Rose};
ghost use Rattle.wasi_fs_streams.specs.Reads.{read_size, handed_out, read_made, polled_by_task, read_polled, read_turned, read_made_in_turn, after_read_made, OnCode, ReadsFile, read_closed, read_sent};
ghost use Rattle.wasi_fs_streams.specs.declared.read.ReadStreamProducer.TheVariants.{Open, Ended};
ghost use Rattle.wasi_producers.specs.Inputs.{produced};

use crate::fetch::fetch;
use crate::task::{TASK_BYTES, Task, TaskTurn};
use bytes::Bytes;
use std::alloc::Global;
use wasi_base::OutOfMemory;
use wasi_fs::{File, Store};
use wasi_fs_types::ErrorCode;
use wasi_producers::{Produced, StreamResult};

/// The number of bytes that a poll of unknown room reads at most.
const USUAL_ROOM: usize = 8192;

/// The greatest number of bytes that one poll reads.
const MOST_BYTES: u64 = 65536;

/// A task that reads a file, at its stream's offset.
pub type ReadTask = Task<(), Result<Bytes, ErrorCode>>;

/// A file's bytes as a stream that a guest takes. Where the file is open to block, each poll reads
/// at once; else a poll makes a task, whose turns do the read, and a later poll takes its bytes.
#[derive(Drop)]
pub enum ReadStreamProducer {
    /// The next read is of this file, from this offset on.
    Open {
        file: File,
        offset: u64,
        /// The task that stands. The blocking path makes none.
        task: Option<ReadTask>,
    },
    /// The stream ended, with the one result that is sent.
    Ended(Result<(), ErrorCode>),
}

fn nothing(answer: StreamResult) -> Produced
    ensures { result ≡ produced answer [] }
{
    Produced {
        result: answer,
        bytes: Bytes::new(),
    }
}

fn read_size(room: Option<u64>) -> usize
    ensures { result ≡ read_size room }
{
    match room {
        Some(room) => room.min(MOST_BYTES) as usize,
        None => USUAL_ROOM,
    }
}

// what a read gave goes out
fn handed_out(
    file: File,
    offset: u64,
    outcome: Result<Bytes, ErrorCode>,
) -> (Produced, ReadStreamProducer)
    ensures { result ≡ handed_out file offset outcome }
{
    let bytes = match outcome {
        Ok(bytes) => bytes,
        Err(code) => return (
            nothing(StreamResult::Dropped),
            ReadStreamProducer::ended(code),
        ),
    };
    if bytes.is_empty() {
        let ended = ReadStreamProducer::Ended(Ok(()));
        return (nothing(StreamResult::Dropped), ended);
    }
    let (answer, after) = match offset.checked_add(bytes.len() as u64) {
        Some(offset) => (
            StreamResult::Completed,
            ReadStreamProducer::new(file, offset),
        ),
        None => (
            StreamResult::Dropped,
            ReadStreamProducer::ended(ErrorCode::Overflow),
        ),
    };
    let produced = Produced {
        result: answer,
        bytes,
    };
    (produced, after)
}

// a poll on the task path
fn polled_by_task(
    file: File,
    offset: u64,
    task: Option<ReadTask>,
    finish: bool,
) -> (Produced, ReadStreamProducer)
    ensures { result ≡ polled_by_task finish file offset task }
{
    let (answer, task) = match task {
        Some(Task::Done(outcome)) => return handed_out(file, offset, outcome),
        Some(Task::Running(())) => (StreamResult::Pending, Some(Task::Running(()))),
        Some(Task::NotStarted(())) | None if finish => (StreamResult::Cancelled, None),
        Some(Task::NotStarted(())) | None => (StreamResult::Pending, Some(Task::NotStarted(()))),
    };
    let after = ReadStreamProducer::Open { file, offset, task };
    (nothing(answer), after)
}

impl ReadStreamProducer {
    pub fn new(file: File, offset: u64) -> ReadStreamProducer
        ensures { result ≡ Open file offset None }
    {
        ReadStreamProducer::Open {
            file,
            offset,
            task: None,
        }
    }

    /// A stream that ended with this code, for a call that is refused.
    pub fn ended(code: ErrorCode) -> ReadStreamProducer
        ensures { result ≡ Ended (Err code) }
    {
        ReadStreamProducer::Ended(Err(code))
    }

    /// One poll. On the blocking path it is one read of as many bytes as the guest has room for,
    /// 65536 at most, and 8192 where the room is not known; none for room 0. On the task path the
    /// room does not matter: where no task stands one is made, and a poll of one that is not done
    /// is `Pending`; under `finish` one that was not started is taken away, and the poll is
    /// `Cancelled`. Of a task that is done the bytes go out.
    ///
    /// The end of the file, a fault and an offset that would pass the greatest number end the
    /// stream, the last with the bytes that were read. A stream that ended hands out nothing and
    /// stays as it is. Out of memory changes nothing.
    pub fn poll_produce<T: Store>(
        &mut self,
        alloc: Global,
        store: &mut T,
        room: Option<u64>,
        finish: bool,
    ) -> Result<Produced, OutOfMemory>
        requires { ReadsFile (T.is_file store.old) self.old }
        ensures polled { IfOk result (λ p. read_polled (read_made (T.told store.old) (T.contents store.old) room self.old) finish self.old ≡ (p, self.new)) }
        ensures leaves { IfOk result (λ p. store.new ≡ after_read_made T.met store.old (read_made (T.told store.old) (T.contents store.old) room self.old)) }
        ensures cause { IfOk result (λ p. OnCode (read_made (T.told store.old) (T.contents store.old) room self.old) (Rose (T.told store.old).faults (T.told store.new).faults)) }
        ensures same { (f : ℕ) → T.contents store.new f ≡ T.contents store.old f }
        ensures files { (f : ℕ) → T.is_file store.old f → T.is_file store.new f }
        ensures goes_on { ReadsFile (T.is_file store.new) self.new }
        ensures later { (T.told store.old).faults ≤ (T.told store.new).faults }
        ensures memory { OnErr result ((self.new ≡ self.old) × (store.new ≡ store.old)) }
    {
        let (file, offset, task) = match self {
            ReadStreamProducer::Open { file, offset, task } => (*file, *offset, task),
            ReadStreamProducer::Ended(_) => return Ok(nothing(StreamResult::Dropped)),
        };
        if !file.blocking {
            let (answer, after) = polled_by_task(file, offset, task.take(), finish);
            *self = after;
            return Ok(answer);
        }
        let size = read_size(room);
        if size == 0 {
            return Ok(nothing(StreamResult::Completed));
        }
        match fetch(alloc, store, file.node, offset, size) {
            Ok(outcome) => {
                let (answer, after) = handed_out(file, offset, outcome);
                *self = after;
                Ok(answer)
            }
            Err(error) => Err(error),
        }
    }

    /// One turn of the task: the first starts it, and the second reads 8192 bytes at most, from the
    /// stream's offset on. It is `Idle` where no task stands or it is done. Out of memory changes
    /// nothing, so that the next turn tries again.
    pub fn turn<T: Store>(&mut self, alloc: Global, store: &mut T) -> Result<TaskTurn, OutOfMemory>
        requires { ReadsFile (T.is_file store.old) self.old }
        ensures turned { IfOk result (λ t. read_turned (T.told store.old) (T.contents store.old) self.old ≡ (t, self.new)) }
        ensures leaves { IfOk result (λ t. store.new ≡ after_read_made T.met store.old (read_made_in_turn (T.told store.old) (T.contents store.old) self.old)) }
        ensures cause { IfOk result (λ t. OnCode (read_made_in_turn (T.told store.old) (T.contents store.old) self.old) (Rose (T.told store.old).faults (T.told store.new).faults)) }
        ensures same { (f : ℕ) → T.contents store.new f ≡ T.contents store.old f }
        ensures files { (f : ℕ) → T.is_file store.old f → T.is_file store.new f }
        ensures goes_on { ReadsFile (T.is_file store.new) self.new }
        ensures later { (T.told store.old).faults ≤ (T.told store.new).faults }
        ensures memory { OnErr result ((self.new ≡ self.old) × (store.new ≡ store.old)) }
    {
        let (file, offset, task) = match self {
            ReadStreamProducer::Open { file, offset, task } => (*file, *offset, task),
            ReadStreamProducer::Ended(_) => return Ok(TaskTurn::Idle),
        };
        match task {
            Some(Task::NotStarted(())) => {
                *task = Some(Task::Running(()));
                Ok(TaskTurn::Started)
            }
            Some(Task::Running(())) => match fetch(alloc, store, file.node, offset, TASK_BYTES) {
                Ok(outcome) => {
                    *task = Some(Task::Done(outcome));
                    Ok(TaskTurn::Done)
                }
                Err(error) => Err(error),
            },
            Some(Task::Done(_)) | None => Ok(TaskTurn::Idle),
        }
    }

    /// Ends the stream, with Ok where no result was sent. A task that stands is gone.
    pub fn close(&mut self)
        ensures { self.new ≡ read_closed self.old }
    {
        match self {
            ReadStreamProducer::Open { .. } => *self = ReadStreamProducer::Ended(Ok(())),
            ReadStreamProducer::Ended(_) => {}
        }
    }

    /// The result that was sent; none while the stream is open.
    pub fn result(&self) -> Option<Result<(), ErrorCode>>
        ensures { result ≡ read_sent self.now }
    {
        match self {
            ReadStreamProducer::Open { .. } => None,
            ReadStreamProducer::Ended(sent) => Some(*sent),
        }
    }
}
