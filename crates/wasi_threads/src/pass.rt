ghost use Rattle.std.specs.Prelude.{◌≡◌, ◌+◌, ◌-◌, ◌<◌, ◌≤◌, ◌++◌, ◌∷◌, [], length, List, ℕ, IfOk, OnOk, OnErr, slice_get, Some, vec_len, vec_capacity, false};
ghost use Rattle.wasi_threads.specs.Calls.{SamePass, Gains};
ghost use Rattle.wasi_threads.specs.Passes.{HasPlace, has_stop, has_sight, owed_by, owed_after, is_stop, is_sight};
ghost use Rattle.wasi_threads.specs.declared.entry.Event.TheVariants as events;

use crate::entry::{Entry, Event, Kept};
use crate::piece::Piece;
use std::alloc::Global;
use std::marker::Model;
use std::sync::ledger::{Book, Ledger, Share};
use wasi_base::OutOfMemory;

/// What one caller carries: its number, a copy of its entries, and its share of the ledger that
/// counts all entries.
#[derive(Drop)]
pub struct Pass<L: Ledger> {
    number: u64,
    entries: Vec<Entry>,
    share: Share<L>,
    stopped: bool,
    saw: bool,
}

impl<L: Ledger> Model for Pass<L> {
    ghost use Rattle.std.specs.Prelude.{◌≡◌, ◌-◌, ◌≤◌, length, vec_capacity};
    ghost use Rattle.wasi_threads.specs.Passes.{Passing, has_stop, has_sight, owed_by};

    ghost Value = { Passing };

    ghost view = { λ p. record { number = p.number; entries = p.entries.items; room = vec_capacity p.entries - length p.entries.items } };

    ghost invariant = { λ p. (p.share.amount ≡ length p.entries.items) × (p.share.parts ≡ 1) × (p.stopped ≡ has_stop p.entries.items) × (p.saw ≡ has_sight p.entries.items) × (owed_by p.entries.items ≤ vec_capacity p.entries - length p.entries.items) };
}

/// What an entry keeps beside its number and its pass, with a copy of the bytes for the pass.
#[derive(Drop)]
pub(crate) struct Made {
    pub event: Event,
    pub answer: Kept,
    pub bytes: Piece,
    pub copy: Piece,
    pub wait: Option<u64>,
    ghost same: { copy ≡ bytes },
}

impl Made {
    /// An entry with no bytes. It takes no memory.
    pub(crate) fn plain(event: Event, answer: Kept, wait: Option<u64>, alloc: Global) -> Made
        ensures event { result.event ≡ event }
        ensures answer { result.answer ≡ answer }
        ensures bytes { result.bytes ≡ [] }
        ensures wait { result.wait ≡ wait }
    {
        Made {
            event,
            answer,
            bytes: Piece::empty(alloc),
            copy: Piece::empty(alloc),
            wait,
        }
    }
}

impl Event {
    fn is_stop(self) -> bool
        ensures { result ≡ is_stop self }
    {
        match self {
            Event::Stop => true,
            _ => false,
        }
    }

    fn is_sight(self) -> bool
        ensures { result ≡ is_sight self }
    {
        match self {
            Event::SawStop => true,
            _ => false,
        }
    }
}

impl<L: Ledger> Pass<L> {
    /// Its place among the joins: 0 for the worker's.
    pub fn number(&self) -> u64
        ensures { result ≡ self.now.number }
    {
        self.number
    }

    /// No entries yet.
    pub(crate) fn fresh(number: u64, entries: Vec<Entry>, share: Share<L>) -> Pass<L>
        requires empty { vec_len entries ≡ 0 }
        requires room { 3 ≤ vec_capacity entries }
        requires share { (share.parts ≡ 1) × (share.amount ≡ 0) }
        ensures number { result.number ≡ number }
        ensures entries { result.entries ≡ [] }
        ensures room { HasPlace result }
    {
        Pass {
            number,
            entries,
            share,
            stopped: false,
            saw: false,
        }
    }

    /// Makes room for so many entries beside those of a stop.
    pub(crate) fn reserve(&mut self, places: usize) -> Result<(), OutOfMemory>
        requires { places ≤ 2 }
        ensures same { SamePass self.old self.new }
        ensures room { OnOk result (owed_by self.new.entries + places ≤ self.new.room) }
    {
        self.entries.reserve(places + 2)?;
        Ok(())
    }

    pub(crate) fn len(&self) -> usize
        ensures { result ≡ length self.now.entries }
    {
        self.entries.len()
    }

    pub(crate) fn entries(&self) -> &[Entry]
        ensures { result.now ≡ self.now.entries }
    {
        self.entries.as_slice()
    }

    pub(crate) fn into_entry(self, at: usize) -> Entry
        requires { at < length self.entries }
        ensures { slice_get self.entries at ≡ Some result }
    {
        let mut entries = self.entries;
        entries.remove(at)
    }

    /// Whether it stopped. Where it didn't, there is a place for its stop.
    pub(crate) fn has_stopped(&self) -> bool
        ensures is { result ≡ has_stop self.now.entries }
        ensures place { result ≡ false → owed_after events.Stop self.now.entries + 1 ≤ self.now.room }
    {
        self.stopped
    }

    /// Whether it saw a stop. Where it didn't, there is a place for that.
    pub(crate) fn has_seen(&self) -> bool
        ensures is { result ≡ has_sight self.now.entries }
        ensures place { result ≡ false → owed_after events.SawStop self.now.entries + 1 ≤ self.now.room }
    {
        self.saw
    }

    /// The one place where an entry comes into a history and its pass. It takes no memory.
    #[tactic(auto, using(crate::proofs::HistoryFacts::last_more, crate::proofs::HistoryFacts::stop_more, crate::proofs::HistoryFacts::sight_more))]
    pub(crate) fn put(&mut self, made: Made, history: &mut Vec<Entry>, book: &mut Book<L>)
        requires room { owed_after made.event self.old.entries + 1 ≤ self.old.room }
        requires places { vec_len history.old < vec_capacity history.old }
        ensures history { history.new.items ≡ history.old.items ++ record { number = vec_len history.old; pass = self.old.number; event = made.event; answer = made.answer; bytes = made.bytes; wait = made.wait } ∷ [] }
        ensures capacity { vec_capacity history.new ≡ vec_capacity history.old }
        ensures counted { book.new.total ≡ book.old.total + 1 }
        ensures entries { self.new.entries ≡ self.old.entries ++ record { number = vec_len history.old; pass = self.old.number; event = made.event; answer = made.answer; bytes = made.bytes; wait = made.wait } ∷ [] }
        ensures gains { Gains self.old self.new made.event made.answer made.bytes made.wait }
        ensures number { self.new.number ≡ self.old.number }
        ensures left { self.new.room + 1 ≡ self.old.room }
        ensures owed { owed_by self.new.entries ≡ owed_after made.event self.old.entries }
    {
        let number = history.len() as u64;
        let pass = self.number;
        let Made {
            event,
            answer,
            bytes,
            copy,
            wait,
            ..
        } = made;
        history.push_reserved(Entry {
            number,
            pass,
            event,
            answer,
            bytes,
            wait,
        });
        self.entries.push_reserved(Entry {
            number,
            pass,
            event,
            answer,
            bytes: copy,
            wait,
        });
        self.stopped = event.is_stop() | self.stopped;
        self.saw = event.is_sight() | self.saw;
        book.add(&mut self.share, 1);
    }
}
