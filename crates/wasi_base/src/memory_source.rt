ghost use Rattle.std.specs.Prelude.{◌≡◌, ◌<◌, ◌≤◌, ◌+◌, length, take, drop, slice_get, Some};
ghost use Rattle.wasi_base.specs.Causes.{Rose};

use crate::source::copy_front;
use crate::{IoKind, Plan, Source};
use std::marker::Model;

/// A source in memory: its bytes, given as its plan says.
#[derive(Drop)]
pub struct MemSource {
    bytes: Vec<u8>,
    at: usize,
    plan: Vec<Plan>,
    next: usize,
    faults: u64,
}

impl Model for MemSource {
    ghost use Rattle.std.specs.Prelude.{◌≤◌, length, drop};
    ghost use Rattle.wasi_base.specs.Memory.{SourceMemory};

    ghost Value = { SourceMemory };

    ghost view = { λ s. record {
      told = record { left = drop s.at s.bytes.items; plan = drop s.next s.plan.items };
      faults = s.faults;
    } };

    ghost invariant = { λ s. (s.at ≤ length s.bytes.items) × (s.next ≤ length s.plan.items) };
}

impl MemSource {
    /// A source of these bytes. Each read takes the plan's next item; past the plan it gives
    /// all that fits.
    pub fn new(bytes: Vec<u8>, plan: Vec<Plan>) -> MemSource
        ensures { result ≡ record { told = record { left = bytes.items; plan = plan.items }; faults = 0 } }
    {
        MemSource {
            bytes,
            at: 0,
            plan,
            next: 0,
            faults: 0,
        }
    }

    /// The bytes that no read gave yet.
    pub fn left(&self) -> &[u8]
        ensures { result.now ≡ self.now.told.left }
    {
        &self.bytes[self.at..]
    }

    fn planned(&self) -> Option<Plan>
        ensures { result ≡ slice_get self.now.told.plan 0 }
    {
        self.plan.get(self.next).copied()
    }

    // the next item of the plan is done
    fn drop_item(&mut self)
        requires { 0 < length self.old.told.plan }
        ensures { self.new ≡ record { told = record { left = self.old.told.left; plan = drop 1 self.old.told.plan }; faults = self.old.faults } }
    {
        self.next += 1;
    }

    // a planned fault
    fn fail(&mut self)
        requires { 0 < length self.old.told.plan }
        ensures told { self.new.told ≡ record { left = self.old.told.left; plan = drop 1 self.old.told.plan } }
        ensures later { self.old.faults ≤ self.new.faults }
        ensures faults { Rose self.old.faults self.new.faults }
    {
        self.next += 1;
        self.faults = self.faults.saturating_add(1);
    }

    // hands out the first bytes, as many as there are and fit
    fn hand_out(&mut self, room: usize, buf: &mut [u8]) -> usize
        requires { room ≤ length buf.old }
        ensures count { result ≡ length (take room self.old.told.left) }
        ensures front { take result buf.new ≡ take room self.old.told.left }
        ensures told { self.new.told ≡ record { left = drop room self.old.told.left; plan = self.old.told.plan } }
        ensures faults { self.new.faults ≡ self.old.faults }
    {
        let count = copy_front(&self.bytes[self.at..], room, buf);
        self.at += count;
        count
    }
}

impl Source for MemSource {
    ghost told = { λ s. Some s.told };

    ghost faults = { λ s. s.faults };

    fn read(&mut self, buf: &mut [u8]) -> Result<usize, IoKind> {
        let room = buf.len();
        if room == 0 {
            return Ok(0);
        }
        match self.planned() {
            Some(Plan::Fail(kind)) => {
                self.fail();
                Err(kind)
            }
            Some(Plan::Take(most)) => {
                let count = self.hand_out(room.min(most.max(1) as usize), buf);
                if count > 0 {
                    self.drop_item();
                }
                Ok(count)
            }
            None => Ok(self.hand_out(room, buf)),
        }
    }
}
