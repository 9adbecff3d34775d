ghost use Rattle.std.specs.Prelude.{◌≡◌, ◌-◌, ◌^◌, ◌<◌, ◌≤◌, [], min, length, take, drop, IfOk, IsSomeAnd, None};
ghost use Rattle.wasi_stdin.specs.Shared.{Shared, IsSound, counted, answer_of, meeting_of, after_meeting, reading_in, reading_of, bytes_read, after_read, handed_by, skipped, skipped_in, capture_of, after_capture, delivered, outcome_given, FitsOutcome, mode_holding, is_waiting, polled_in, poll_of, bytes_polled, after_poll, wait_after_poll, handed_by_poll, is_ready, after_ready, block_of, after_block, wait_after_block};

use crate::answer::{Answer, Meeting, Outcome, PolledRead};
use crate::mode::Mode;
use crate::wait::Wait;
use circular_buffer::HeapCircularBuffer;
use std::alloc::Global;
use std::marker::Model;
use wasi_base::OutOfMemory;

/// The greatest number of bytes that are read from the input at once.
pub const MOST_BYTES: usize = 65536;

/// The input that guests share. Readers ask, and are given what was delivered; the caller runs
/// the worker that captures a request, reads that much once, and delivers what the read gave.
#[derive(Drop)]
pub struct StdinCore {
    mode: Mode,
    ring: HeapCircularBuffer<u8>,
    captured: Option<usize>,
    deliveries: u64,
}

impl Model for StdinCore {
    ghost use Rattle.std.specs.Prelude.{◌≡◌};
    ghost use Rattle.wasi_stdin.specs.Shared.{Shared, IsSound};

    ghost Value = { Shared };

    ghost view = { λ s. record { mode = s.mode; held = s.ring.items; captured = s.captured; deliveries = s.deliveries } };

    ghost invariant = { λ s. record {
      sound : IsSound (record { mode = s.mode; held = s.ring.items; captured = s.captured; deliveries = s.deliveries });
      places : s.ring.capacity ≡ 65536;
    } };
}

impl StdinCore {
    /// Nothing asked, held or captured. Takes the memory of all later calls.
    pub fn new(alloc: Global) -> Result<StdinCore, OutOfMemory>
        ensures { IfOk result (λ s. s ≡ record { mode = Mode.Idle; held = []; captured = None; deliveries = 0 }) }
    {
        let ring = HeapCircularBuffer::with_capacity(alloc, MOST_BYTES)?;
        Ok(StdinCore {
            mode: Mode::Idle,
            ring,
            captured: None,
            deliveries: 0,
        })
    }

    /// How many bytes are held.
    pub fn held_count(&self) -> usize
        ensures { result ≡ length self.now.held }
    {
        self.ring.len()
    }

    /// How many bytes a read of this size would hand out now.
    pub fn would_give(&self, size: u64) -> usize
        ensures { result ≡ min size (length self.now.held) }
    {
        let held = self.held_count();
        if size < held as u64 {
            size as usize
        } else {
            held
        }
    }

    /// The size that a delivery has to read, if one is captured.
    pub fn captured(&self) -> Option<usize>
        ensures value { result ≡ self.now.captured }
        ensures sound { IsSound self.now }
    {
        let _ = &self.mode;
        self.captured
    }

    /// How many deliveries were made.
    pub fn deliveries(&self) -> u64
        ensures { result ≡ self.now.deliveries }
    {
        self.deliveries
    }

    /// The ring of 65536 places that the held bytes stand in, from front to back.
    pub fn ring(&self) -> &HeapCircularBuffer<u8>
        ensures held { result.now.items ≡ self.now.held }
        ensures places { result.now.capacity ≡ 65536 }
    {
        &self.ring
    }

    // moves the first held bytes to the front of `dst`, as many as a read of this size hands out
    fn hand_out(&mut self, size: u64, dst: &mut [u8]) -> usize
        requires held { self.old.mode ≡ Mode.Held }
        requires room { min size (length self.old.held) ≤ length dst.old }
        ensures count { result ≡ min size (length self.old.held) }
        ensures front { take result dst.new ≡ take result self.old.held }
        ensures rest { drop result dst.new ≡ drop result dst.old }
        ensures after { self.new ≡ after_meeting self.old size }
    {
        let count = self.would_give(size);
        self.ring.read_into(&mut dst[..count]);
        if self.ring.is_empty() {
            self.mode = Mode::Idle;
        }
        count
    }

    // drops the first held bytes, as many as a read of this size hands out
    fn drop_front(&mut self, size: u64) -> usize
        requires held { self.old.mode ≡ Mode.Held }
        ensures count { result ≡ min size (length self.old.held) }
        ensures after { self.new ≡ after_meeting self.old size }
    {
        let count = self.would_give(size);
        self.ring.truncate_front(self.ring.len() - count);
        if self.ring.is_empty() {
            self.mode = Mode::Idle;
        }
        count
    }

    // asks for so many bytes, or has what is there
    fn meet(&mut self, size: u64) -> Meeting
        ensures meeting { result ≡ counted (meeting_of self.old size) }
        ensures after { self.new ≡ after_meeting self.old size }
    {
        match self.mode {
            Mode::Idle => {
                self.mode = Mode::Asked(size);
                Meeting::NothingYet
            }
            Mode::Asked(asked) => {
                self.mode = Mode::Asked(asked.max(size));
                Meeting::NothingYet
            }
            Mode::Held => Meeting::Handed(self.drop_front(size)),
            Mode::Failed(kind) => {
                self.mode = Mode::Closed;
                Meeting::Fault(kind)
            }
            Mode::Closed => Meeting::End,
        }
    }

    // asks for so many bytes, or moves what is there to the front of `dst`
    fn meet_into(&mut self, size: u64, dst: &mut [u8]) -> Meeting
        requires { min size (length self.old.held) ≤ length dst.old }
        ensures meeting { result ≡ counted (meeting_of self.old size) }
        ensures front { take (handed_by (answer_of result)) dst.new ≡ take (handed_by (answer_of result)) self.old.held }
        ensures rest { drop (handed_by (answer_of result)) dst.new ≡ drop (handed_by (answer_of result)) dst.old }
        ensures after { self.new ≡ after_meeting self.old size }
    {
        match self.mode {
            Mode::Held => Meeting::Handed(self.hand_out(size, dst)),
            _ => self.meet(size),
        }
    }

    /// A read of this size. The bytes handed out stand at the front of `dst`, and the rest of
    /// `dst` stays. A read of size 0 gives no bytes and changes nothing.
    pub fn read(&mut self, size: u64, dst: &mut [u8]) -> Answer
        requires { min size (length self.old.held) ≤ length dst.old }
        ensures answer { reading_in result dst.new ≡ reading_of self.old size }
        ensures count { handed_by result ≡ length (bytes_read (reading_of self.old size)) }
        ensures rest { drop (handed_by result) dst.new ≡ drop (handed_by result) dst.old }
        ensures after { self.new ≡ after_read self.old size }
    {
        if size == 0 {
            return Answer::Bytes(0);
        }
        self.meet_into(size, dst).answer()
    }

    /// A read of this size whose bytes are dropped.
    pub fn skip(&mut self, size: u64) -> Answer
        ensures answer { skipped_in result ≡ skipped (reading_of self.old size) }
        ensures after { self.new ≡ after_read self.old size }
    {
        if size == 0 {
            return Answer::Bytes(0);
        }
        self.meet(size).answer()
    }

    /// A read that may wait. A wait that isn't over answers `Pending` and changes nothing; one
    /// that is over is cleared first. `Pending` leaves the wait at the count of deliveries.
    pub fn poll_read(&mut self, wait: &mut Wait, room: u64, dst: &mut [u8]) -> PolledRead
        requires { min room (length self.old.held) ≤ length dst.old }
        ensures answer { polled_in result dst.new ≡ poll_of self.old wait.old room }
        ensures count { handed_by_poll result ≡ length (bytes_polled (poll_of self.old wait.old room)) }
        ensures rest { drop (handed_by_poll result) dst.new ≡ drop (handed_by_poll result) dst.old }
        ensures after { self.new ≡ after_poll self.old wait.old room }
        ensures wait { wait.new ≡ wait_after_poll self.old wait.old room }
    {
        if self.is_waiting(wait) {
            return PolledRead::Pending;
        }
        let deliveries = self.deliveries();
        match self.meet_into(room, dst) {
            Meeting::NothingYet => {
                wait.set(Some(deliveries));
                PolledRead::Pending
            }
            Meeting::Handed(count) => {
                wait.set(None);
                PolledRead::Bytes(count)
            }
            Meeting::Fault(kind) => {
                wait.set(None);
                PolledRead::Failed(kind)
            }
            Meeting::End => {
                wait.set(None);
                PolledRead::Bytes(0)
            }
        }
    }

    // a wait is over exactly where its number is below the count of deliveries
    fn is_waiting(&self, wait: &Wait) -> bool
        ensures { result ≡ is_waiting wait.now self.now.deliveries }
    {
        match wait.since() {
            Some(since) => since >= self.deliveries,
            None => false,
        }
    }

    /// Whether a read would be told something. Where nobody asked it asks for 65536 bytes.
    pub fn ready(&mut self) -> bool
        ensures answer { result ≡ is_ready self.old }
        ensures after { self.new ≡ after_ready self.old }
    {
        match self.mode {
            Mode::Idle => {
                self.mode = Mode::Asked(MOST_BYTES as u64);
                false
            }
            Mode::Asked(_) => false,
            Mode::Held | Mode::Failed(_) | Mode::Closed => true,
        }
    }

    /// `ready`, which waits for one delivery where it is false: false until that delivery, and
    /// then true once.
    pub fn block(&mut self, wait: &mut Wait) -> bool
        ensures answer { result ≡ block_of self.old wait.old }
        ensures after { self.new ≡ after_block self.old wait.old }
        ensures wait { wait.new ≡ wait_after_block self.old wait.old }
    {
        match wait.since() {
            None => {
                let deliveries = self.deliveries();
                let ready = self.ready();
                if !ready {
                    wait.set(Some(deliveries));
                }
                ready
            }
            Some(since) => {
                let over = since < self.deliveries();
                if over {
                    wait.set(None);
                }
                over
            }
        }
    }

    /// The size that a capture would take now: what is asked for, at most 65536 and one at least,
    /// where none is captured.
    pub fn wants(&self) -> Option<usize>
        ensures { result ≡ capture_of self.now }
    {
        match self.mode {
            Mode::Asked(asked) => match self.captured {
                None => Some(asked.min(MOST_BYTES as u64).max(1) as usize),
                Some(_) => None,
            },
            _ => None,
        }
    }

    /// Captures the size that is asked for, at most 65536 and one at least, for one delivery.
    pub fn capture(&mut self) -> Option<usize>
        ensures size { result ≡ capture_of self.old }
        ensures after { self.new ≡ after_capture self.old }
    {
        let size = self.wants()?;
        self.captured = Some(size);
        Some(size)
    }

    /// Delivers what a read of the captured size gave.
    pub fn deliver(&mut self, outcome: Outcome, bytes: &[u8])
        requires room { self.old.deliveries < 2 ^ 64 - 1 }
        requires fits { IsSomeAnd self.old.captured (λ size. FitsOutcome outcome bytes.now size) }
        ensures { self.new ≡ delivered self.old (outcome_given outcome bytes.now) }
    {
        self.ring.fill_from_slice(bytes);
        self.captured = None;
        self.deliveries += 1;
        self.mode = match outcome {
            Outcome::Gave(_) => Mode::Held,
            Outcome::End => Mode::Closed,
            Outcome::Fault(kind) => Mode::Failed(kind),
        };
    }
}
