ghost use Rattle.std.specs.Prelude.{◌≡◌, [], IfOk, OnErr};
ghost use Rattle.wasi_cli.specs.Operations.{read_outcome, after_read};
ghost use Rattle.wasi_cli.specs.Polls.{start_of, begun_handle, begun_turn, poll_answer, handle_after, turn_after, or_none, one_poll, with_none, stopped};
ghost use Rattle.wasi_cli.specs.declared.outcome.Start.TheVariants.{Waits};

use crate::operations::read_once_ready;
use crate::outcome::{Outcome, Start};
use crate::{Owner, Turns};
use bytes::Bytes;
use std::alloc::Global;
use wasi_base::{OutOfMemory, Polled, Source};
use wasi_streams::AsyncReadStream;

/// A handle on a shared stream, whose polls take turns with those of other handles.
#[derive(Clone, Copy, Debug, PartialEq, Eq, Drop)]
pub enum StdioHandle {
    /// No poll is under way.
    Ready,
    /// A poll waits for the turn.
    Locking,
    /// A poll has the turn and waits for the stream.
    Locked,
    /// The stream told its end or a failure.
    Closed,
}

// what a poll answers, with what a closed handle answers
pub(crate) fn or_none<T: Drop>(answer: Polled<Option<T>>, none: T) -> Polled<T>
    ensures { result ≡ or_none none answer }
{
    match answer {
        Polled::Pending => Polled::Pending,
        Polled::Ready(Some(value)) => Polled::Ready(value),
        Polled::Ready(None) => Polled::Ready(none),
        Polled::Failed(kind) => Polled::Failed(kind),
    }
}

impl StdioHandle {
    /// Asks for the turn, unless the handle is closed.
    pub(crate) fn begin(&mut self, who: Owner, turns: &mut Turns) -> Result<Start, OutOfMemory>
        ensures start { IfOk result (λ start. start ≡ start_of self.old turns.old who) }
        ensures handle { IfOk result (λ start. self.new ≡ begun_handle start self.old) }
        ensures turn { IfOk result (λ start. turns.new ≡ begun_turn start turns.old who) }
        ensures memory { OnErr result ((start_of self.old turns.old who ≡ Waits) × (self.new ≡ self.old) × (turns.new ≡ turns.old)) }
    {
        match *self {
            StdioHandle::Closed => return Ok(Start::Ended),
            StdioHandle::Ready | StdioHandle::Locking | StdioHandle::Locked => {}
        }
        match turns.ask(who) {
            Ok(true) => {
                *self = StdioHandle::Locked;
                Ok(Start::Runs)
            }
            Ok(false) => {
                *self = StdioHandle::Locking;
                Ok(Start::Waits)
            }
            Err(error) => Err(error),
        }
    }

    /// Keeps the turn where the operation waits, and gives it on else.
    pub(crate) fn settle<T: Drop>(
        &mut self,
        who: Owner,
        turns: &mut Turns,
        outcome: Outcome<T>,
    ) -> Polled<Option<T>>
        ensures answer { result ≡ poll_answer outcome }
        ensures handle { self.new ≡ handle_after outcome }
        ensures turn { turns.new ≡ turn_after outcome turns.old who }
    {
        match outcome {
            Outcome::Waits => {
                *self = StdioHandle::Locked;
                Polled::Pending
            }
            Outcome::Gives(value) => {
                *self = StdioHandle::Ready;
                turns.free(who);
                Polled::Ready(Some(value))
            }
            Outcome::Closes => {
                *self = StdioHandle::Closed;
                turns.free(who);
                Polled::Ready(None)
            }
            Outcome::Fails(kind) => {
                *self = StdioHandle::Closed;
                turns.free(who);
                Polled::Failed(kind)
            }
        }
    }

    /// Reads at most `room` bytes once the turn is this handle's and the stream is ready, and gives
    /// the turn on; else waits for the turn, or keeps it. No bytes at the stream's end, and from a
    /// closed handle. Where there is no memory for the bytes, the stream stays as it was, and the
    /// turn with the handle.
    pub fn poll_read<S: Source + Drop>(
        &mut self,
        alloc: Global,
        who: Owner,
        turns: &mut Turns,
        stream: &mut AsyncReadStream<S>,
        room: u64,
    ) -> Result<Polled<Bytes>, OutOfMemory>
        ensures poll { IfOk result (λ answer. record { answer = answer; handle = self.new; turn = turns.new; stream = stream.new } ≡ with_none [] (one_poll self.old who turns.old stream.old (read_outcome stream.old room) (after_read stream.old room))) }
        ensures memory { OnErr result (record { handle = self.new; turn = turns.new; stream = stream.new } ≡ stopped self.old who turns.old stream.old) }
    {
        match self.begin(who, turns) {
            Ok(Start::Ended) => Ok(Polled::Ready(Bytes::new())),
            Ok(Start::Waits) => Ok(Polled::Pending),
            Ok(Start::Runs) => match read_once_ready(alloc, stream, room) {
                Ok(outcome) => Ok(or_none(self.settle(who, turns, outcome), Bytes::new())),
                Err(error) => Err(error),
            },
            Err(error) => Err(error),
        }
    }
}
