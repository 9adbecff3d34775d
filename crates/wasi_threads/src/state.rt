ghost use Rattle.std.specs.Prelude.{◌≡◌, ◌+◌, ◌-◌, ◌<◌, ◌≤◌, ◌++◌, ◌∷◌, ◌||◌, [], length, List, ℕ, IfOk, OnOk, OnErr, vec_len, vec_capacity, true, false, Some, None, slice_get, IsSome, IsSomeAnd};
ghost use Rattle.wasi_threads.specs.Calls.{Makes, Gains, SamePass, reading_in, polling_in, AddsReady, AddsBlock, AddsPoll, AddsWaitOver, kept_skipped, count_skipped};
ghost use Rattle.wasi_threads.specs.History.{Locked, opening, kept_reading, kept_polling, owed, is_any, is_over, has_work_in, may_see_in, entry_for, after_event, AreLegal, replayed};
ghost use Rattle.wasi_threads.specs.Passes.{HasPlace, owed_after};
ghost use Rattle.wasi_threads.specs.declared.entry.Event.TheVariants as event;
ghost use Rattle.wasi_threads.specs.declared.entry.Kept.TheVariants as kept;
ghost use Rattle.wasi_stdin.specs.Shared.{reading_of, bytes_read, skipped, skipped_in, is_ready, block_of, poll_of, bytes_polled, capture_of, FitsOutcome};

use crate::entry::{Entry, Event, Kept};
use crate::input::Input;
use crate::parts::{PollParts, ReadParts, poll_parts, read_parts};
use crate::pass::{Made, Pass};
use crate::piece::Piece;
use crate::reply::{PolledReply, ReadReply};
use crate::round::Round;
use std::alloc::Global;
use std::marker::Model;
use std::sync::ledger::{Blank, Book, Ledger, Share};
use wasi_base::OutOfMemory;
use wasi_stdin::{Answer, Outcome, StdinCore, Wait};

/// The parts of the ledger that no pass has.
#[derive(Drop)]
pub struct Rest<L: Ledger> {
    share: Share<L>,
    ghost idle: { share.amount ≡ 0 },
}

impl<L: Ledger> Rest<L> {
    fn part(&mut self) -> Share<L>
        requires { 0 < self.old.share.parts }
        ensures part { (result.parts ≡ 1) × (result.amount ≡ 0) }
        ensures rest { self.new.share.parts + 1 ≡ self.old.share.parts }
    {
        self.share.split_off(1, 0)
    }
}

/// What stands behind the lock: the shared input, who joined and stopped, the history of all
/// calls, and the book that counts its entries. The history replays to what stands.
#[derive(Drop)]
pub struct State<L: Ledger> {
    core: Input,
    stops: Vec<bool>,
    saw: bool,
    stopped: bool,
    places: usize,
    history: Vec<Entry>,
    book: Book<L>,
    rest: Rest<L>,
    alloc: Global,
}

impl<L: Ledger> Model for State<L> {
    ghost use Rattle.std.specs.Prelude.{vec_capacity};
    ghost use Rattle.wasi_threads.specs.History.{Locked, IsKept};

    ghost Value = { Locked };

    ghost view = { λ s. record { now = record { shared = s.core; stops = s.stops.items; saw = s.saw }; history = s.history.items } };

    ghost invariant = { λ s. IsKept (record { shared = s.core; stops = s.stops.items; saw = s.saw }) s.history.items s.book.total s.rest.share.parts (vec_capacity s.history) s.stopped s.places };
}

impl<L: Ledger> State<L> {
    /// Nothing happened yet.
    pub fn new(alloc: Global, blank: Blank) -> Result<State<L>, OutOfMemory>
        requires name { blank.name ≡ L.name }
        requires parts { blank.parts ≡ L.parts }
        requires many { blank.parts ≡ 9223372036854775807 }
        ensures { IfOk result (λ s. s ≡ record { now = opening; history = [] }) }
    {
        let core = Input::new(alloc)?;
        let history = Vec::with_capacity(alloc, 1)?;
        let (book, share) = blank.open::<L>();
        Ok(State {
            core,
            stops: Vec::new(alloc),
            saw: false,
            stopped: false,
            places: 1,
            history,
            book,
            rest: Rest { share },
            alloc,
        })
    }

    /// The history and the input, at the end.
    pub fn into_parts(self) -> (Vec<Entry>, StdinCore)
        ensures history { result.0.items ≡ self.history }
        ensures core { result.1 ≡ self.now.shared }
        ensures legal { AreLegal 0 opening self.history }
        ensures ends { replayed opening self.history ≡ self.now }
    {
        let history = self.history;
        let core = self.core.into_core();
        (history, core)
    }

    /// One more pass.
    pub fn join(&mut self) -> Result<Pass<L>, OutOfMemory>
        ensures number { IfOk result (λ p. p.number ≡ length self.old.now.stops) }
        ensures entries { IfOk result (λ p. p.entries ≡ entry_for (length self.old.history) (length self.old.now.stops) event.Join [] self.old.now ∷ []) }
        ensures history { OnOk result (self.new.history ≡ self.old.history ++ entry_for (length self.old.history) (length self.old.now.stops) event.Join [] self.old.now ∷ []) }
        ensures now { OnOk result (self.new.now ≡ after_event event.Join (length self.old.now.stops) [] self.old.now) }
        ensures refused { OnErr result (self.new ≡ self.old) }
    {
        let mut entries = Vec::new(self.alloc);
        entries.reserve(3)?;
        self.stops.reserve(1)?;
        self.history.reserve(self.places + 2)?;
        let pass = self.stops.len() as u64;
        let mut mine = Pass::fresh(pass, entries, self.rest.part());
        self.stops.push_reserved(false);
        self.places += 1;
        let made = Made::plain(Event::Join, Kept::None, None, self.alloc);
        mine.put(made, &mut self.history, &mut self.book);
        Ok(mine)
    }

    /// Whether this pass joined.
    pub fn has_joined(&self, pass: u64) -> bool
        ensures { result ≡ true → pass < length self.now.now.stops }
    {
        pass < self.stops.len() as u64
    }

    /// A read of a pass.
    pub fn read(&mut self, pass: &mut Pass<L>, size: u64) -> Result<ReadReply, OutOfMemory>
        requires joined { pass.old.number < length self.old.now.stops }
        requires some { 0 < size }
        ensures reply { IfOk result (λ r. reading_in r ≡ reading_of self.old.now.shared size) }
        ensures makes { OnOk result (Makes self.old self.new pass.old pass.new (event.Read size) []) }
        ensures gains { IfOk result (λ r. Gains pass.old pass.new (event.Read size) (kept_reading (reading_in r)) (bytes_read (reading_in r)) None) }
        ensures refused { OnErr result ((self.new ≡ self.old) × SamePass pass.old pass.new) }
    {
        pass.reserve(1)?;
        self.history.reserve(self.places + 1)?;
        let parts = read_parts(&mut self.core, self.alloc, size)?;
        let ReadParts {
            reply,
            answer,
            bytes,
            copy,
        } = parts;
        let made = Made {
            event: Event::Read(size),
            answer,
            bytes,
            copy,
            wait: None,
        };
        pass.put(made, &mut self.history, &mut self.book);
        Ok(reply)
    }

    /// A skip of a pass.
    pub fn skip(&mut self, pass: &mut Pass<L>, size: u64) -> Result<ReadReply, OutOfMemory>
        requires joined { pass.old.number < length self.old.now.stops }
        requires some { 0 < size }
        ensures reply { IfOk result (λ r. reading_in r ≡ reading_of self.old.now.shared size) }
        ensures makes { OnOk result (Makes self.old self.new pass.old pass.new (event.Skip size) []) }
        ensures gains { IfOk result (λ r. Gains pass.old pass.new (event.Skip size) (kept_reading (reading_in r)) (bytes_read (reading_in r)) None) }
        ensures refused { OnErr result ((self.new ≡ self.old) × SamePass pass.old pass.new) }
    {
        pass.reserve(1)?;
        self.history.reserve(self.places + 1)?;
        let parts = read_parts(&mut self.core, self.alloc, size)?;
        let ReadParts {
            reply,
            answer,
            bytes,
            copy,
        } = parts;
        let made = Made {
            event: Event::Skip(size),
            answer,
            bytes,
            copy,
            wait: None,
        };
        pass.put(made, &mut self.history, &mut self.book);
        Ok(reply)
    }

    /// Whether a read would be told something.
    pub fn ready(&mut self, pass: &mut Pass<L>) -> Result<bool, OutOfMemory>
        requires joined { pass.old.number < length self.old.now.stops }
        ensures reply { IfOk result (λ r. r ≡ is_ready self.old.now.shared) }
        ensures makes { OnOk result (Makes self.old self.new pass.old pass.new event.Ready []) }
        ensures gains { IfOk result (λ r. AddsReady pass.old pass.new r) }
        ensures refused { OnErr result ((self.new ≡ self.old) × SamePass pass.old pass.new) }
    {
        pass.reserve(1)?;
        self.history.reserve(self.places + 1)?;
        let answer = self.core.ready();
        let made = Made::plain(Event::Ready, Kept::Flag(answer), None, self.alloc);
        pass.put(made, &mut self.history, &mut self.book);
        Ok(answer)
    }

    /// A block of a pass.
    pub fn block(&mut self, pass: &mut Pass<L>, wait: &mut Wait) -> Result<bool, OutOfMemory>
        requires joined { pass.old.number < length self.old.now.stops }
        ensures reply { IfOk result (λ r. r ≡ block_of self.old.now.shared wait.old) }
        ensures makes { OnOk result (Makes self.old self.new pass.old pass.new (event.Block wait.old) []) }
        ensures gains { IfOk result (λ r. AddsBlock pass.old pass.new wait.old r wait.new) }
        ensures refused { OnErr result ((self.new ≡ self.old) × SamePass pass.old pass.new × (wait.new ≡ wait.old)) }
    {
        pass.reserve(1)?;
        self.history.reserve(self.places + 1)?;
        let since = wait.since();
        let answer = self.core.block(wait);
        let made = Made::plain(
            Event::Block(since),
            Kept::Flag(answer),
            wait.since(),
            self.alloc,
        );
        pass.put(made, &mut self.history, &mut self.book);
        Ok(answer)
    }

    /// A polled read of a pass.
    pub fn poll_read(
        &mut self,
        pass: &mut Pass<L>,
        wait: &mut Wait,
        room: u64,
    ) -> Result<PolledReply, OutOfMemory>
        requires joined { pass.old.number < length self.old.now.stops }
        ensures reply { IfOk result (λ r. polling_in r ≡ poll_of self.old.now.shared wait.old room) }
        ensures makes { OnOk result (Makes self.old self.new pass.old pass.new (event.PollRead wait.old room) []) }
        ensures gains { IfOk result (λ r. AddsPoll pass.old pass.new wait.old room (polling_in r) wait.new) }
        ensures refused { OnErr result ((self.new ≡ self.old) × SamePass pass.old pass.new × (wait.new ≡ wait.old)) }
    {
        pass.reserve(1)?;
        self.history.reserve(self.places + 1)?;
        let since = wait.since();
        let parts = poll_parts(&mut self.core, self.alloc, wait, room)?;
        let PollParts {
            reply,
            answer,
            bytes,
            copy,
        } = parts;
        let made = Made {
            event: Event::PollRead(since, room),
            answer,
            bytes,
            copy,
            wait: wait.since(),
        };
        pass.put(made, &mut self.history, &mut self.book);
        Ok(reply)
    }

    // whether a wait is over
    fn is_over(&self, wait: &Wait) -> bool
        ensures { result ≡ is_over wait.now self.now.now.shared }
    {
        match wait.since() {
            Some(since) => since < self.core.deliveries(),
            None => true,
        }
    }

    /// Whether a wait is over, or a stop stands.
    pub fn may_tell(&self, wait: &Wait) -> bool
        ensures { result ≡ (is_over wait.now self.now.now.shared || is_any self.now.now.stops) }
    {
        self.is_over(wait) | self.stopped
    }

    /// Tells a pass whether its wait is over.
    pub fn wait_over(&mut self, pass: &mut Pass<L>, wait: &Wait) -> Result<bool, OutOfMemory>
        requires joined { pass.old.number < length self.old.now.stops }
        requires may { (is_over wait.now self.old.now.shared || is_any self.old.now.stops) ≡ true }
        ensures reply { IfOk result (λ r. r ≡ is_over wait.now self.old.now.shared) }
        ensures makes { OnOk result (Makes self.old self.new pass.old pass.new (event.WaitOver wait.now) []) }
        ensures gains { IfOk result (λ r. AddsWaitOver pass.old pass.new wait.now r) }
        ensures refused { OnErr result ((self.new ≡ self.old) × SamePass pass.old pass.new) }
    {
        pass.reserve(1)?;
        self.history.reserve(self.places + 1)?;
        let over = self.is_over(wait);
        let made = Made::plain(
            Event::WaitOver(wait.since()),
            Kept::Flag(over),
            None,
            self.alloc,
        );
        pass.put(made, &mut self.history, &mut self.book);
        Ok(over)
    }

    /// Whether a request stands, and no stop.
    pub fn has_work(&self) -> bool
        ensures exact { result ≡ has_work_in self.now.now }
        ensures work { result ≡ true → IsSome (capture_of self.now.now.shared) × (is_any self.now.now.stops ≡ false) }
    {
        self.core.wants().is_some() && !self.stopped
    }

    /// Captures what is asked for. All memory of the round is taken first.
    pub fn capture(&mut self, pass: &mut Pass<L>) -> Result<Round, OutOfMemory>
        requires worker { (pass.old.number ≡ 0) × (0 < length self.old.now.stops) }
        requires work { IsSome (capture_of self.old.now.shared) × (is_any self.old.now.stops ≡ false) }
        ensures size { IfOk result (λ r. capture_of self.old.now.shared ≡ Some r.size) }
        ensures makes { OnOk result (Makes self.old self.new pass.old pass.new event.Capture []) }
        ensures gains { IfOk result (λ r. Gains pass.old pass.new event.Capture (kept.Count r.size) [] None) }
        ensures room { OnOk result (HasPlace pass.new) }
        ensures positive { IfOk result (λ r. 0 < r.size) }
        ensures refused { OnErr result ((self.new ≡ self.old) × SamePass pass.old pass.new) }
    {
        let size = match self.core.wants() {
            Some(size) => size,
            None => unreachable!(),
        };
        pass.reserve(2)?;
        self.history.reserve(self.places + 2)?;
        let round = Round::new(self.alloc, size)?;
        self.core.capture();
        self.places += 1;
        let made = Made::plain(Event::Capture, Kept::Count(size as u64), None, self.alloc);
        pass.put(made, &mut self.history, &mut self.book);
        Ok(round)
    }

    /// Whether this size is captured.
    pub fn has_captured(&self, size: usize) -> bool
        ensures { result ≡ true → self.now.now.shared.captured ≡ Some size }
    {
        self.core.captured() == Some(size)
    }

    /// Delivers what the round's read gave. It takes no memory.
    pub fn deliver(&mut self, pass: &mut Pass<L>, outcome: Outcome, bytes: Piece, copy: Piece)
        requires worker { (pass.old.number ≡ 0) × (0 < length self.old.now.stops) }
        requires room { HasPlace pass.old }
        requires same { copy ≡ bytes }
        requires fits { IsSomeAnd self.old.now.shared.captured (λ size. FitsOutcome outcome bytes size) }
        ensures makes { Makes self.old self.new pass.old pass.new (event.Deliver outcome) bytes }
        ensures gains { Gains pass.old pass.new (event.Deliver outcome) kept.None bytes None }
    {
        self.core.deliver(outcome, &bytes);
        self.places -= 1;
        let made = Made {
            event: Event::Deliver(outcome),
            answer: Kept::None,
            bytes,
            copy,
            wait: None,
        };
        pass.put(made, &mut self.history, &mut self.book);
    }

    /// Whether this pass may stop: it joined, and the history has no stop of it.
    pub fn may_stop(&self, pass: u64) -> bool
        ensures { result ≡ true → slice_get self.now.now.stops pass ≡ Some false }
    {
        pass < self.stops.len() as u64 && !self.stops[pass as usize]
    }

    /// A stop of a pass. It takes no memory.
    pub fn stop(&mut self, pass: &mut Pass<L>)
        requires may { slice_get self.old.now.stops pass.old.number ≡ Some false }
        requires room { owed_after event.Stop pass.old.entries + 1 ≤ pass.old.room }
        ensures makes { Makes self.old self.new pass.old pass.new event.Stop [] }
        ensures gains { Gains pass.old pass.new event.Stop kept.None [] None }
    {
        self.stops[pass.number() as usize] = true;
        self.stopped = true;
        self.places -= 1;
        let made = Made::plain(Event::Stop, Kept::None, None, self.alloc);
        pass.put(made, &mut self.history, &mut self.book);
    }

    /// Whether a stop stands that the worker may see.
    pub fn may_see(&self) -> bool
        ensures exact { result ≡ may_see_in self.now.now }
        ensures may { result ≡ true → (is_any self.now.now.stops ≡ true) × (self.now.now.saw ≡ false) × (self.now.now.shared.captured ≡ None) }
    {
        self.stopped && !self.saw && self.core.captured().is_none()
    }

    /// The worker sees a stop. It takes no memory.
    pub fn see_stop(&mut self, pass: &mut Pass<L>)
        requires worker { (pass.old.number ≡ 0) × (0 < length self.old.now.stops) }
        requires may { (is_any self.old.now.stops ≡ true) × (self.old.now.saw ≡ false) × (self.old.now.shared.captured ≡ None) }
        requires room { owed_after event.SawStop pass.old.entries + 1 ≤ pass.old.room }
        ensures makes { Makes self.old self.new pass.old pass.new event.SawStop [] }
        ensures gains { Gains pass.old pass.new event.SawStop kept.None [] None }
    {
        self.saw = true;
        self.places -= 1;
        let made = Made::plain(Event::SawStop, Kept::None, None, self.alloc);
        pass.put(made, &mut self.history, &mut self.book);
    }
}
