ghost use Rattle.std.specs.Prelude.{ℕ, false, not, ◌≡◌, ◌+◌, ◌<◌, ◌≤◌, ◌++◌, ◌∷◌, [], length, None, IfOk, OnOk, OnErr, IfSome, MatchOption, Some, Ok, vec_len, vec_capacity, true, List, Option};
ghost use Rattle.wasi_base.specs.Causes.{Rose};
ghost use Rattle.wasi_base.specs.Source.{Told, Gives, given_in};
ghost use Rattle.wasi_threads.specs.Calls.{SamePass, Gains};
ghost use Rattle.wasi_threads.specs.declared.entry.Event.TheVariants as event;
ghost use Rattle.wasi_threads.specs.declared.entry.Kept.TheVariants as kept;
ghost use Rattle.wasi_threads.specs.Rounds.{Worked, StepIs, TakenIs};
ghost use Rattle.wasi_threads.specs.Calls.{IsJoined, AddsStop};
ghost use Rattle.wasi_threads.specs.Passes.{HasPlace, has_sight, has_stop};
ghost use Rattle.wasi_threads.specs.Collects.{brought_in};
ghost use Rattle.wasi_threads.specs.Ends.{end_holds};
ghost use Rattle.wasi_stdin.specs.Shared.{FitsOutcome, outcome_of, outcome_given, OnFault};

use crate::pass::Pass;
use crate::piece::{Piece, twice};
use crate::round::{Round, Step, Taken};
use crate::shared::SharedStdin;
use crate::state::State;
use std::alloc::Global;
use std::sync::ledger::{Blank, Ledger};
use std::sync::{Condvar, Mutex};
use wasi_base::{OutOfMemory, Source};
use wasi_stdin::Outcome;

/// The one that reads the source for all passes.
#[derive(Drop)]
pub struct Worker<S: Source + Drop, L: Ledger> {
    pub(crate) source: S,
    pub(crate) pass: Pass<L>,
    pub(crate) ended: Option<WorkerEnd>,
    ghost first: { pass.number ≡ 0 },
    ghost end: { end_holds ended pass.entries ≡ true },
}

/// Why the worker is done.
#[derive(Clone, Copy, Debug, PartialEq, Eq, Drop)]
pub enum WorkerEnd {
    Stopped,
    Ended,
}

fn worker_of<S: Source + Drop, L: Ledger>(source: S, pass: Pass<L>) -> Worker<S, L>
    requires number { pass.number ≡ 0 }
    requires unseen { end_holds None pass.entries ≡ true }
    ensures source { result.source ≡ source }
    ensures fresh { result.ended ≡ None }
    ensures pass { result.pass ≡ pass }
{
    Worker {
        source,
        pass,
        ended: None,
    }
}

/// What one read gave, with its copy.
#[derive(Drop)]
pub(crate) struct Gift {
    pub outcome: Outcome,
    pub bytes: Piece,
    pub copied: Piece,
}

/// One read of a round.
pub(crate) fn read_once<S: Source>(source: &mut S, round: Round, alloc: Global) -> Gift
    requires { 0 < round.size }
    ensures fits { FitsOutcome result.outcome result.bytes round.size }
    ensures copied { result.copied ≡ result.bytes }
    ensures gives { Gives (S.told source.old) round.size (outcome_given result.outcome result.bytes) (S.told source.new) }
    ensures later { S.faults source.old ≤ S.faults source.new }
    ensures fault { OnFault result.outcome (Rose (S.faults source.old) (S.faults source.new)) }
{
    let Round {
        size: _,
        mut given,
        copy,
    } = round;
    match source.read(given.as_mut_slice()) {
        Ok(0) => Gift {
            outcome: Outcome::End,
            bytes: Piece::empty(alloc),
            copied: Piece::empty(alloc),
        },
        Ok(count) => {
            given.truncate(count);
            let (bytes, copied) = twice(given, copy);
            Gift {
                outcome: Outcome::Gave(count),
                bytes,
                copied,
            }
        }
        Err(kind) => Gift {
            outcome: Outcome::Fault(kind),
            bytes: Piece::empty(alloc),
            copied: Piece::empty(alloc),
        },
    }
}

impl<L: Ledger> SharedStdin<L> {
    /// One input, and the one that reads it.
    #[tactic(auto, using(crate::proofs::CallFacts::joined_is))]
    pub fn new<S: Source + Drop>(
        alloc: Global,
        blank: Blank,
        source: S,
    ) -> Result<(SharedStdin<L>, Worker<S, L>), OutOfMemory>
        requires name { blank.name ≡ L.name }
        requires parts { blank.parts ≡ L.parts }
        requires many { blank.parts ≡ 9223372036854775807 }
        ensures source { IfOk result (λ r. r.1.source ≡ source) }
        ensures fresh { IfOk result (λ r. r.1.ended ≡ None) }
        ensures number { IfOk result (λ r. r.1.pass.number ≡ 0) }
        ensures joined { IfOk result (λ r. IsJoined r.1.pass) }
    {
        let mut state = State::<L>::new(alloc, blank)?;
        let pass = state.join()?;
        let shared = SharedStdin {
            state: Mutex::new(state),
            changed: Condvar::new(),
            alloc,
        };
        Ok((shared, worker_of(source, pass)))
    }

    // waits for a request or a stop, and captures
    fn take<H: std::sync::Wait>(&self, rt: &H, pass: &mut Pass<L>) -> Taken
        requires number { pass.old.number ≡ 0 }
        requires unseen { has_sight pass.old.entries ≡ false }
        ensures { TakenIs result pass.old pass.new }
    {
        let guard = self.state.lock(rt);
        let mut guard = self.changed.wait_while(
            rt,
            guard,
            |s| !s.has_joined(0) || !(s.may_see() || s.has_work()),
        );
        let state = &mut *guard;
        if state.may_see() {
            if pass.has_seen() {
                unreachable!()
            } else {
                state.see_stop(pass);
                Taken::Stopped
            }
        } else if state.has_work() {
            match state.capture(pass) {
                Ok(round) => Taken::Some(round),
                Err(_) => Taken::NoMemory,
            }
        } else {
            unreachable!()
        }
    }

    // delivers once the state shows the captured size
    fn give<H: std::sync::Wait>(&self, rt: &H, pass: &mut Pass<L>, size: usize, gift: Gift)
        requires worker { pass.old.number ≡ 0 }
        requires room { HasPlace pass.old }
        requires fits { FitsOutcome gift.outcome gift.bytes size }
        requires copied { gift.copied ≡ gift.bytes }
        ensures { Gains pass.old pass.new (event.Deliver gift.outcome) kept.None gift.bytes None }
    {
        let guard = self.state.lock(rt);
        let mut guard = self
            .changed
            .wait_while(rt, guard, |s| !s.has_joined(0) || !s.has_captured(size));
        let state = &mut *guard;
        let Gift {
            outcome,
            bytes,
            copied,
        } = gift;
        state.deliver(pass, outcome, bytes, copied);
        drop(guard);
        self.changed.notify_all();
    }

    // one round
    fn round<H: std::sync::Wait, S: Source>(
        &self,
        rt: &H,
        source: &mut S,
        pass: &mut Pass<L>,
    ) -> Step
        requires number { pass.old.number ≡ 0 }
        requires unseen { has_sight pass.old.entries ≡ false }
        ensures { StepIs result pass.old pass.new (S.told source.old) (S.told source.new) (S.faults source.old) (S.faults source.new) }
    {
        match self.take(rt, pass) {
            Taken::Stopped => Step::Stopped,
            Taken::NoMemory => Step::NoMemory,
            Taken::Some(round) => {
                let size = round.size;
                let gift = read_once(source, round, self.alloc);
                let outcome = gift.outcome;
                self.give(rt, pass, size, gift);
                match outcome {
                    Outcome::Gave(_) => Step::Went,
                    Outcome::End => Step::Ended,
                    Outcome::Fault(_) => Step::Ended,
                }
            }
        }
    }

    fn work<H: std::sync::Wait, S: Source>(
        &self,
        rt: &H,
        source: &mut S,
        pass: &mut Pass<L>,
    ) -> Result<WorkerEnd, OutOfMemory>
        requires number { pass.old.number ≡ 0 }
        requires unseen { end_holds None pass.old.entries ≡ true }
        ensures worked { Worked pass.old pass.new (S.told source.old) (S.told source.new) (S.faults source.old) (S.faults source.new) }
        ensures holds { IfOk result (λ e. end_holds (Some e) pass.new.entries ≡ true) }
        ensures unseen { OnErr result (end_holds None pass.new.entries ≡ true) }
    {
        for _ in rt.forever() {
            match self.round(rt, source, pass) {
                Step::Went => {}
                Step::Ended => return Ok(WorkerEnd::Ended),
                Step::Stopped => return Ok(WorkerEnd::Stopped),
                Step::NoMemory => return Err(OutOfMemory),
            }
        }
        unreachable!()
    }

    /// Reads for all passes until a stop, an end or a fault: it waits for a request or a stop,
    /// captures, reads once with no lock held, and delivers. It finds no memory only before a
    /// capture; what it did before stays. Once it is done, a later call answers the same and
    /// does nothing.
    pub fn run_worker<H: std::sync::Wait, S: Source + Drop>(
        &self,
        rt: &H,
        worker: &mut Worker<S, L>,
    ) -> Result<WorkerEnd, OutOfMemory>
        ensures worked { worker.old.ended ≡ None → Worked worker.old.pass worker.new.pass (S.told worker.old.source) (S.told worker.new.source) (S.faults worker.old.source) (S.faults worker.new.source) }
        ensures again { IfSome worker.old.ended (λ e. (result ≡ Ok e) × (worker.new ≡ worker.old)) }
        ensures ended { IfOk result (λ e. worker.new.ended ≡ Some e) }
        ensures holds { IfOk result (λ e. end_holds (Some e) worker.new.pass.entries ≡ true) }
    {
        match worker.ended {
            Some(end) => Ok(end),
            None => {
                let Worker {
                    source,
                    pass,
                    ended,
                    ..
                } = worker;
                let end = self.work(rt, source, pass)?;
                *ended = Some(end);
                Ok(end)
            }
        }
    }

    /// `stop` of the worker's own pass.
    #[tactic(auto, using(crate::proofs::CallFacts::end_stays))]
    pub fn stop_worker<H: std::sync::Wait, S: Source + Drop>(
        &self,
        rt: &H,
        worker: &mut Worker<S, L>,
    )
        ensures stops { AddsStop worker.old.pass worker.new.pass }
        ensures source { worker.new.source ≡ worker.old.source }
        ensures ended { worker.new.ended ≡ worker.old.ended }
    {
        self.stop(rt, &mut worker.pass);
    }
}
