ghost use Rattle.std.specs.Prelude.{◌≡◌, true, Some, IfOk, OnErr};
ghost use Rattle.wasi_base.specs.declared.polled.Polled.TheVariants.{Ready};
ghost use Rattle.wasi_cli.specs.Turns.{after_free};
ghost use Rattle.wasi_cli.specs.Polls.{poll_answer, handle_after, turn_after, or_none};
ghost use Rattle.wasi_cli.specs.StdoutPolls.{is_pending, write_poll, write_stopped, second_poll, flush_poll};
ghost use Rattle.wasi_cli.specs.declared.handle.StdioHandle.TheVariants as handle;

use crate::handle::or_none;
use crate::operations::{flush_once_ready, flushed_once_ready, write_once_permitted};
use crate::outcome::{Outcome, Start};
use crate::{Owner, StdioHandle, Turns};
use std::alloc::Global;
use wasi_base::{OutOfMemory, Polled, Sink};
use wasi_streams::AsyncWriteStream;

/// A handle on a shared output. A flush takes two polls: the first asks for it, and the second
/// waits until it is done.
#[derive(Clone, Copy, Debug, PartialEq, Eq, Drop)]
pub struct StdoutHandle {
    pub handle: StdioHandle,
    /// Whether a flush was asked for whose end is waited for.
    pub flushing: bool,
}

impl StdoutHandle {
    /// Writes as many bytes of the piece as the stream permits, once the turn is this handle's and
    /// the stream permits any, answers their number and gives the turn on; else waits for the turn,
    /// or keeps it. 0 for no bytes, at once, and 0 at the stream's end and from a closed handle.
    /// Where there is no memory for the bytes, the stream stays as it was, and the turn with the
    /// handle.
    pub fn poll_write<K: Sink + Drop>(
        &mut self,
        alloc: Global,
        who: Owner,
        turns: &mut Turns,
        stream: &mut AsyncWriteStream<K>,
        piece: &[u8],
    ) -> Result<Polled<u64>, OutOfMemory>
        ensures poll { IfOk result (λ answer. record { answer = answer; handle = self.new; turn = turns.new; stream = stream.new } ≡ write_poll self.old who turns.old stream.old piece.now) }
        ensures memory { OnErr result (record { handle = self.new; turn = turns.new; stream = stream.new } ≡ write_stopped self.old who turns.old stream.old) }
    {
        if piece.is_empty() {
            return Ok(Polled::Ready(0));
        }
        match self.handle.begin(who, turns) {
            Ok(Start::Ended) => Ok(Polled::Ready(0)),
            Ok(Start::Waits) => Ok(Polled::Pending),
            Ok(Start::Runs) => match write_once_permitted(alloc, stream, piece) {
                Ok(outcome) => Ok(or_none(self.handle.settle(who, turns, outcome), 0)),
                Err(error) => Err(error),
            },
            Err(error) => Err(error),
        }
    }

    // the operation of the second poll, with the turn; it goes on as long as this is pending
    fn settle_flushed(&mut self, who: Owner, turns: &mut Turns, outcome: Outcome<()>) -> Polled<()>
        requires { self.old.flushing ≡ true }
        ensures answer { result ≡ or_none tt (poll_answer outcome) }
        ensures handle { self.new ≡ record { handle = handle_after outcome; flushing = is_pending (poll_answer outcome) } }
        ensures turn { turns.new ≡ turn_after outcome turns.old who }
    {
        match self.handle.settle(who, turns, outcome) {
            Polled::Pending => Polled::Pending,
            answer => {
                self.flushing = false;
                or_none(answer, ())
            }
        }
    }

    // the second poll of a flush
    fn poll_flushed<K: Sink + Drop>(
        &mut self,
        who: Owner,
        turns: &mut Turns,
        stream: &mut AsyncWriteStream<K>,
    ) -> Result<Polled<()>, OutOfMemory>
        requires { self.old.flushing ≡ true }
        ensures poll { IfOk result (λ answer. record { answer = answer; handle = self.new; turn = turns.new; stream = stream.new } ≡ second_poll self.old.handle who turns.old stream.old) }
        ensures memory { OnErr result ((self.new ≡ self.old) × (turns.new ≡ turns.old) × (stream.new ≡ stream.old)) }
    {
        match self.handle.begin(who, turns) {
            Ok(Start::Ended) => {
                self.flushing = false;
                Ok(Polled::Ready(()))
            }
            Ok(Start::Waits) => Ok(Polled::Pending),
            Ok(Start::Runs) => Ok(self.settle_flushed(who, turns, flushed_once_ready(stream))),
            Err(error) => Err(error),
        }
    }

    // the turn is given on between the two polls of a flush, and the second asks for it at once
    fn poll_on<K: Sink + Drop>(
        &mut self,
        who: Owner,
        turns: &mut Turns,
        stream: &mut AsyncWriteStream<K>,
    ) -> Polled<()>
        requires { turns.old.holder ≡ Some who }
        ensures { record { answer = result; handle = self.new; turn = turns.new; stream = stream.new } ≡ second_poll handle.Ready who (after_free turns.old who) stream.old }
    {
        self.flushing = true;
        if turns.give_way(who) {
            self.settle_flushed(who, turns, flushed_once_ready(stream))
        } else {
            self.handle = StdioHandle::Locking;
            Polled::Pending
        }
    }

    /// Asks for a flush, and then waits for its end, each once the turn is this handle's and the
    /// stream is ready. In between the turn is given on, and asked for behind all that wait. A
    /// fault of the flush is told here. Ready from a closed handle. Out of memory changes nothing.
    pub fn poll_flush<K: Sink + Drop>(
        &mut self,
        who: Owner,
        turns: &mut Turns,
        stream: &mut AsyncWriteStream<K>,
    ) -> Result<Polled<()>, OutOfMemory>
        ensures poll { IfOk result (λ answer. record { answer = answer; handle = self.new; turn = turns.new; stream = stream.new } ≡ flush_poll self.old who turns.old stream.old) }
        ensures memory { OnErr result ((self.new ≡ self.old) × (turns.new ≡ turns.old) × (stream.new ≡ stream.old)) }
    {
        if self.flushing {
            return self.poll_flushed(who, turns, stream);
        }
        match self.handle.begin(who, turns) {
            Ok(Start::Ended) => Ok(Polled::Ready(())),
            Ok(Start::Waits) => Ok(Polled::Pending),
            Ok(Start::Runs) => match flush_once_ready(stream) {
                Outcome::Gives(()) => Ok(self.poll_on(who, turns, stream)),
                outcome => Ok(or_none(self.handle.settle(who, turns, outcome), ())),
            },
            Err(error) => Err(error),
        }
    }

    /// Always ready: what was written stays with the stream.
    pub fn poll_shutdown(&self) -> Polled<()>
        ensures { result ≡ Ready tt }
    {
        Polled::Ready(())
    }
}
