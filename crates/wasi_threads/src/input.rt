ghost use Rattle.std.specs.Prelude.{◌≡◌, ◌-◌, ◌^◌, ◌<◌, ◌≤◌, [], List, ℕ, min, length, drop, IfOk, IfSome, IsSomeAnd, None};
ghost use Rattle.wasi_stdin.specs.declared.mode.Mode.{Mode};
ghost use Rattle.wasi_stdin.specs.Shared.{IsSound, reading_of, after_read, skipped, skipped_in, handed_by, capture_of, after_capture, delivered, outcome_given, FitsOutcome, polled_in, poll_of, after_poll, wait_after_poll, handed_by_poll, is_ready, after_ready, block_of, after_block, wait_after_block};
ghost use Rattle.wasi_threads.specs.History.{opening};

use crate::piece::Piece;
use bytes::Bytes;
use std::alloc::Global;
use std::marker::Model;
use wasi_base::OutOfMemory;
use wasi_stdin::{Answer, Outcome, PolledRead, StdinCore, Wait};

/// The shared input, and the held bytes once more, to be shared by whoever reads them. Each call
/// but `held` is the core's.
#[derive(Drop)]
pub(crate) struct Input {
    core: StdinCore,
    held: Option<Bytes>,
}

impl Model for Input {
    ghost use Rattle.std.specs.Prelude.{◌≡◌, IfSome};
    ghost use Rattle.wasi_stdin.specs.Shared.{Shared};

    ghost Value = { Shared };

    ghost view = { λ input. input.core };

    ghost invariant = { λ input. IfSome input.held (λ bytes. bytes ≡ input.core.held) };
}

// drops the first bytes
fn advance(held: &mut Option<Bytes>, count: usize)
    requires within { IfSome held.old (λ bytes. count ≤ length bytes) }
    ensures { (all : List ℕ) → IfSome held.old (λ bytes. bytes ≡ all) → IfSome held.new (λ rest. rest ≡ drop count all) }
{
    match held {
        Some(bytes) => bytes.advance(count),
        None => {}
    }
}

fn handed(answer: Answer) -> usize
    ensures { result ≡ handed_by answer }
{
    match answer {
        Answer::Bytes(count) => count,
        Answer::Closed | Answer::Failed(_) => 0,
    }
}

fn handed_by_poll(answer: PolledRead) -> usize
    ensures { result ≡ handed_by_poll answer }
{
    match answer {
        PolledRead::Bytes(count) => count,
        PolledRead::Pending | PolledRead::Failed(_) => 0,
    }
}

impl Input {
    pub(crate) fn new(alloc: Global) -> Result<Input, OutOfMemory>
        ensures { IfOk result (λ s. s ≡ opening.shared) }
    {
        let core = StdinCore::new(alloc)?;
        Ok(Input { core, held: None })
    }

    pub(crate) fn into_core(self) -> StdinCore
        ensures { result ≡ self }
    {
        self.core
    }

    /// One more owner of all held bytes. It copies them where there was no memory to share them
    /// when they were delivered.
    pub(crate) fn held(&mut self, alloc: Global) -> Result<Bytes, OutOfMemory>
        ensures held { IfOk result (λ bytes. bytes ≡ self.old.held) }
        ensures same { self.new ≡ self.old }
    {
        if let Some(bytes) = &self.held {
            return Ok(bytes.clone()?);
        }
        let bytes = Bytes::from_vec(self.core.ring().to_vec(alloc)?)?;
        self.held = Some(bytes.clone()?);
        Ok(bytes)
    }

    pub(crate) fn would_give(&self, size: u64) -> usize
        ensures { result ≡ min size (length self.now.held) }
    {
        self.core.would_give(size)
    }

    pub(crate) fn captured(&self) -> Option<usize>
        ensures value { result ≡ self.now.captured }
        ensures sound { IsSound self.now }
    {
        self.core.captured()
    }

    pub(crate) fn deliveries(&self) -> u64
        ensures { result ≡ self.now.deliveries }
    {
        self.core.deliveries()
    }

    pub(crate) fn wants(&self) -> Option<usize>
        ensures { result ≡ capture_of self.now }
    {
        self.core.wants()
    }

    pub(crate) fn skip(&mut self, size: u64) -> Answer
        ensures answer { skipped_in result ≡ skipped (reading_of self.old size) }
        ensures after { self.new ≡ after_read self.old size }
    {
        let answer = self.core.skip(size);
        advance(&mut self.held, handed(answer));
        answer
    }

    pub(crate) fn poll_read(&mut self, wait: &mut Wait, room: u64, dst: &mut [u8]) -> PolledRead
        requires { min room (length self.old.held) ≤ length dst.old }
        ensures answer { polled_in result dst.new ≡ poll_of self.old wait.old room }
        ensures after { self.new ≡ after_poll self.old wait.old room }
        ensures wait { wait.new ≡ wait_after_poll self.old wait.old room }
    {
        let answer = self.core.poll_read(wait, room, dst);
        advance(&mut self.held, handed_by_poll(answer));
        answer
    }

    pub(crate) fn ready(&mut self) -> bool
        ensures answer { result ≡ is_ready self.old }
        ensures after { self.new ≡ after_ready self.old }
    {
        self.core.ready()
    }

    pub(crate) fn block(&mut self, wait: &mut Wait) -> bool
        ensures answer { result ≡ block_of self.old wait.old }
        ensures after { self.new ≡ after_block self.old wait.old }
        ensures wait { wait.new ≡ wait_after_block self.old wait.old }
    {
        self.core.block(wait)
    }

    pub(crate) fn capture(&mut self) -> Option<usize>
        ensures size { result ≡ capture_of self.old }
        ensures after { self.new ≡ after_capture self.old }
    {
        self.core.capture()
    }

    pub(crate) fn deliver(&mut self, outcome: Outcome, bytes: &Piece)
        requires room { self.old.deliveries < 2 ^ 64 - 1 }
        requires fits { IsSomeAnd self.old.captured (λ size. FitsOutcome outcome bytes.now size) }
        ensures { self.new ≡ delivered self.old (outcome_given outcome bytes.now) }
    {
        self.core.deliver(outcome, bytes.as_slice());
        self.held = bytes.share();
    }
}
