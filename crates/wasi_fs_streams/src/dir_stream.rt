ghost use Rattle.std.specs.Prelude.{◌≡◌, [], ◌∷◌, None, IfOk, IsOk, OnErr, MatchOption};
ghost use Rattle.wasi_fs.specs.Listing.{listed};
ghost use Rattle.wasi_fs.specs.Trees.{IsDirOf, KeepsDescriptors};
ghost use Rattle.wasi_fs_streams.specs.DirStreams.{begun, dir_turned, tree_turned, polled_with_room, polled_no_room, dir_polled, ListsDir, LeftAscend, ListsInOrder, dir_closed, dir_sent};
ghost use Rattle.wasi_fs_streams.specs.declared.dir_stream.ReadDirStream.TheVariants.{NotStarted, Running};

use crate::task::TaskTurn;
use wasi_base::{OutOfMemory, TrappableError};
use wasi_fs::{Dir, DirectoryEntries, DirectoryEntry, Tree};
use wasi_fs_types::ErrorCode;
use wasi_producers::StreamResult;

/// A directory's entries as a stream that a guest takes, one by one and ascending by their names'
/// bytes, given by a task: its first turn lists the names, and each later one puts one entry where
/// the next poll finds it.
#[derive(Drop)]
pub enum ReadDirStream {
    /// The directory is not listed yet.
    NotStarted(Dir),
    /// The task gives what it listed.
    Running {
        /// The entries that are still to be given.
        left: DirectoryEntries,
        /// The entry that was given, until a poll takes it.
        given: Option<DirectoryEntry>,
    },
    /// How the task ended, until a poll tells it.
    Done(Result<(), ErrorCode>),
    /// The stream ended, with the one result that is sent.
    Ended(Result<(), ErrorCode>),
}

// the first turn
fn begin(tree: &mut Tree, dir: &Dir) -> Result<(TaskTurn, ReadDirStream), OutOfMemory>
    requires { IsDirOf tree.old dir.now }
    ensures turned { IfOk result (λ t. t ≡ begun (listed tree.old dir.now).0) }
    ensures leaves { IfOk result (λ t. tree.new ≡ (listed tree.old dir.now).1) }
    ensures ascending { IfOk result (λ t. LeftAscend t.1) }
    ensures kept { KeepsDescriptors tree.old tree.new }
    ensures memory { OnErr result (tree.new ≡ tree.old) }
{
    match tree.list(dir) {
        Ok(left) => Ok((
            TaskTurn::Started,
            ReadDirStream::Running { left, given: None },
        )),
        Err(TrappableError::Normal(code)) => Ok((TaskTurn::Done, ReadDirStream::Done(Err(code)))),
        Err(TrappableError::OutOfMemory) => Err(OutOfMemory),
        Err(TrappableError::Trap(_)) => unreachable!(),
    }
}

// the next entry that was listed; each of them is Ok
fn next_entry(left: &mut DirectoryEntries) -> Option<DirectoryEntry>
    ensures { MatchOption result (left.old ≡ []) (λ entry. left.old ≡ entry ∷ left.new) }
{
    match left.next() {
        Some(Ok(entry)) => Some(entry),
        Some(Err(_code)) => unreachable!(),
        None => None,
    }
}

impl ReadDirStream {
    pub fn new(dir: Dir) -> ReadDirStream
        ensures { result ≡ NotStarted dir }
    {
        ReadDirStream::NotStarted(dir)
    }

    /// One poll. With room it takes the entry that a turn gave; where none was given it is
    /// `Pending`, or `Cancelled` under `finish`, with the task kept. Once the task is done, its
    /// result is sent. With room for nothing the poll is `Completed`. A stream that ended hands out
    /// nothing and stays as it is. No poll takes memory.
    pub fn poll_produce(
        &mut self,
        room: Option<u64>,
        finish: bool,
    ) -> Result<(StreamResult, Option<DirectoryEntry>), OutOfMemory>
        ensures polled { IfOk result (λ p. dir_polled room finish self.old ≡ (p, self.new)) }
        ensures always { IsOk result }
    {
        if room == Some(0) {
            return Ok((self.answer_no_room(), None));
        }
        Ok(self.take(finish))
    }

    // a poll with room for nothing
    fn answer_no_room(&self) -> StreamResult
        ensures { polled_no_room self.now ≡ ((result, None), self.now) }
    {
        match self {
            ReadDirStream::Ended(_) => StreamResult::Dropped,
            ReadDirStream::NotStarted(_) | ReadDirStream::Running { .. } | ReadDirStream::Done(_) =>
                { StreamResult::Completed }
        }
    }

    // a poll with room
    fn take(&mut self, finish: bool) -> (StreamResult, Option<DirectoryEntry>)
        ensures { polled_with_room finish self.old ≡ (result, self.new) }
    {
        let given = match self {
            ReadDirStream::Ended(_) => return (StreamResult::Dropped, None),
            ReadDirStream::Done(outcome) => {
                *self = ReadDirStream::Ended(*outcome);
                return (StreamResult::Dropped, None);
            }
            ReadDirStream::Running { given, .. } => given.take(),
            ReadDirStream::NotStarted(_) => None,
        };
        match given {
            Some(entry) => (StreamResult::Completed, Some(entry)),
            None if finish => (StreamResult::Cancelled, None),
            None => (StreamResult::Pending, None),
        }
    }

    /// One turn of the task. The first lists the names: `Started`, or `Done` where it meets a
    /// planned fault, whose code the stream then sends. A later one gives the next entry: `Gave`, or
    /// `Done` where none is left. It is `Idle` while the entry before was not taken, and once the
    /// task is done. Out of memory, which comes of the first turn alone, changes nothing.
    pub fn turn(&mut self, tree: &mut Tree) -> Result<TaskTurn, OutOfMemory>
        requires { ListsDir tree.old self.old }
        ensures turned { IfOk result (λ t. dir_turned tree.old self.old ≡ (t, self.new)) }
        ensures leaves { IfOk result (λ t. tree.new ≡ tree_turned tree.old self.old) }
        ensures ascending { IfOk result (λ t. ListsInOrder self.old self.new) }
        ensures kept { KeepsDescriptors tree.old tree.new }
        ensures goes_on { ListsDir tree.new self.new }
        ensures memory { OnErr result ((self.new ≡ self.old) × (tree.new ≡ tree.old)) }
    {
        match self {
            ReadDirStream::NotStarted(dir) => match begin(tree, dir) {
                Ok((answer, after)) => {
                    *self = after;
                    Ok(answer)
                }
                Err(error) => Err(error),
            },
            ReadDirStream::Running {
                given: Some(_entry),
                ..
            } => Ok(TaskTurn::Idle),
            ReadDirStream::Running { left, given } => match next_entry(left) {
                Some(entry) => {
                    *given = Some(entry);
                    Ok(TaskTurn::Gave)
                }
                None => {
                    *self = ReadDirStream::Done(Ok(()));
                    Ok(TaskTurn::Done)
                }
            },
            ReadDirStream::Done(_) | ReadDirStream::Ended(_) => Ok(TaskTurn::Idle),
        }
    }

    /// Ends the stream, with Ok where no result was sent. The task is gone.
    pub fn close(&mut self)
        ensures { self.new ≡ dir_closed self.old }
    {
        match self {
            ReadDirStream::Ended(_) => {}
            ReadDirStream::NotStarted(_) | ReadDirStream::Running { .. } | ReadDirStream::Done(_) =>
                {
                    *self = ReadDirStream::Ended(Ok(()));
                }
        }
    }

    /// The result that was sent; none while the stream is open.
    pub fn result(&self) -> Option<Result<(), ErrorCode>>
        ensures { result ≡ dir_sent self.now }
    {
        match self {
            ReadDirStream::Ended(sent) => Some(*sent),
            ReadDirStream::NotStarted(_) | ReadDirStream::Running { .. } | ReadDirStream::Done(_) =>
                { None }
        }
    }
}
