ghost use Rattle.std.specs.Prelude.{◌≡◌, ◌+◌, ◌<◌, ◌≤◌, ◌++◌, ◌∷◌, [], length, IfOk, OnOk, OnErr, IsOkAnd};
ghost use Rattle.wasi_stdin.specs.Shared.{skipped, skipped_in};
ghost use Rattle.wasi_threads.specs.Calls.{SamePass, IsJoined, reading_in, polling_in, AddsRead, AddsSkip, AddsReady, AddsBlock, AddsPoll, AddsWaitOver, AddsStop};

use crate::pass::Pass;
use crate::piece::Piece;
use crate::reply::{PolledReply, ReadReply};
use crate::state::State;
use std::alloc::Global;
use std::sync::ledger::Ledger;
use std::sync::{Condvar, Mutex};
use wasi_base::OutOfMemory;
use wasi_stdin::{Answer, Wait};

/// One input for several threads. Each call takes the lock once, makes one event, and leaves its
/// entry in the history and in the caller's pass; a call that finds no memory makes none. A call
/// may wait for the lock, and for a state that shows that its pass belongs here.
#[derive(Drop)]
pub struct SharedStdin<L: Ledger> {
    pub(crate) state: Mutex<State<L>>,
    pub(crate) changed: Condvar,
    pub(crate) alloc: Global,
}

// what a skip answers where a read would reply this
fn counted(reply: ReadReply) -> Answer
    ensures { skipped_in result ≡ skipped (reading_in reply) }
{
    match reply {
        ReadReply::Bytes(piece) => Answer::Bytes(piece.as_slice().len()),
        ReadReply::Closed => Answer::Closed,
        ReadReply::Failed(kind) => Answer::Failed(kind),
    }
}

impl<L: Ledger> SharedStdin<L> {
    /// One more pass, for one more caller.
    #[tactic(auto, using(crate::proofs::CallFacts::joined_is))]
    pub fn join<H: std::sync::Wait>(&self, rt: &H) -> Result<Pass<L>, OutOfMemory>
        ensures { IfOk result (λ p. IsJoined p) }
    {
        let mut guard = self.state.lock(rt);
        let state = &mut *guard;
        state.join()
    }

    /// A read. One of size 0 gives no bytes, takes no lock and makes no event.
    pub fn read<H: std::sync::Wait>(
        &self,
        rt: &H,
        pass: &mut Pass<L>,
        size: u64,
    ) -> Result<ReadReply, OutOfMemory>
        ensures ok { IfOk result (λ r. AddsRead pass.old pass.new size (reading_in r)) }
        ensures refused { OnErr result (SamePass pass.old pass.new) }
    {
        if size == 0 {
            return Ok(ReadReply::Bytes(Piece::empty(self.alloc)));
        }
        let number = pass.number();
        let guard = self.state.lock(rt);
        let mut guard = self
            .changed
            .wait_while(rt, guard, |s| !s.has_joined(number));
        let state = &mut *guard;
        let reply = state.read(pass, size);
        drop(guard);
        self.changed.notify_all();
        reply
    }

    /// A read whose bytes are dropped; its entry keeps them.
    #[tactic(auto, using(crate::proofs::CallFacts::skip_adds, crate::proofs::CallFacts::skip_none))]
    pub fn skip<H: std::sync::Wait>(
        &self,
        rt: &H,
        pass: &mut Pass<L>,
        size: u64,
    ) -> Result<Answer, OutOfMemory>
        ensures ok { IfOk result (λ r. AddsSkip pass.old pass.new size (skipped_in r)) }
        ensures refused { OnErr result (SamePass pass.old pass.new) }
    {
        if size == 0 {
            return Ok(Answer::Bytes(0));
        }
        let number = pass.number();
        let guard = self.state.lock(rt);
        let mut guard = self
            .changed
            .wait_while(rt, guard, |s| !s.has_joined(number));
        let state = &mut *guard;
        let reply = state.skip(pass, size);
        drop(guard);
        self.changed.notify_all();
        match reply {
            Ok(reply) => Ok(counted(reply)),
            Err(error) => Err(error),
        }
    }

    /// Whether a read would be told something; where nobody asked it asks for 65536 bytes.
    pub fn ready<H: std::sync::Wait>(&self, rt: &H, pass: &mut Pass<L>) -> Result<bool, OutOfMemory>
        ensures ok { IfOk result (λ r. AddsReady pass.old pass.new r) }
        ensures refused { OnErr result (SamePass pass.old pass.new) }
    {
        let number = pass.number();
        let guard = self.state.lock(rt);
        let mut guard = self
            .changed
            .wait_while(rt, guard, |s| !s.has_joined(number));
        let state = &mut *guard;
        let answer = state.ready(pass);
        drop(guard);
        self.changed.notify_all();
        answer
    }

    /// `ready`, which waits for one delivery where it is false.
    pub fn block<H: std::sync::Wait>(
        &self,
        rt: &H,
        pass: &mut Pass<L>,
        wait: &mut Wait,
    ) -> Result<bool, OutOfMemory>
        ensures ok { IfOk result (λ r. AddsBlock pass.old pass.new wait.old r wait.new) }
        ensures refused { OnErr result (SamePass pass.old pass.new × (wait.new ≡ wait.old)) }
    {
        let number = pass.number();
        let guard = self.state.lock(rt);
        let mut guard = self
            .changed
            .wait_while(rt, guard, |s| !s.has_joined(number));
        let state = &mut *guard;
        let answer = state.block(pass, wait);
        drop(guard);
        self.changed.notify_all();
        answer
    }

    /// A read that may be answered with `Pending`.
    pub fn poll_read<H: std::sync::Wait>(
        &self,
        rt: &H,
        pass: &mut Pass<L>,
        wait: &mut Wait,
        room: u64,
    ) -> Result<PolledReply, OutOfMemory>
        ensures ok { IfOk result (λ r. AddsPoll pass.old pass.new wait.old room (polling_in r) wait.new) }
        ensures refused { OnErr result (SamePass pass.old pass.new × (wait.new ≡ wait.old)) }
    {
        let number = pass.number();
        let guard = self.state.lock(rt);
        let mut guard = self
            .changed
            .wait_while(rt, guard, |s| !s.has_joined(number));
        let state = &mut *guard;
        let reply = state.poll_read(pass, wait, room);
        drop(guard);
        self.changed.notify_all();
        reply
    }

    /// Waits until the wait is over or a stop stands, and tells whether it is over. It leaves the
    /// wait as it is.
    pub fn wait_over<H: std::sync::Wait>(
        &self,
        rt: &H,
        pass: &mut Pass<L>,
        wait: &Wait,
    ) -> Result<bool, OutOfMemory>
        ensures ok { IfOk result (λ r. AddsWaitOver pass.old pass.new wait.now r) }
        ensures refused { OnErr result (SamePass pass.old pass.new) }
    {
        let number = pass.number();
        let guard = self.state.lock(rt);
        let mut guard = self
            .changed
            .wait_while(rt, guard, |s| !s.has_joined(number) || !s.may_tell(wait));
        let state = &mut *guard;
        let answer = state.wait_over(pass, wait);
        drop(guard);
        answer
    }

    /// Asks the worker to stop, once for each pass. It takes no memory.
    pub fn stop<H: std::sync::Wait>(&self, rt: &H, pass: &mut Pass<L>)
        ensures { AddsStop pass.old pass.new }
    {
        if pass.has_stopped() {
            return;
        }
        let number = pass.number();
        let guard = self.state.lock(rt);
        let mut guard = self.changed.wait_while(rt, guard, |s| !s.may_stop(number));
        let state = &mut *guard;
        state.stop(pass);
        drop(guard);
        self.changed.notify_all();
    }
}
