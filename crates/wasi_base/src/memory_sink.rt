ghost use Rattle.std.specs.Prelude.{◌≡◌, ◌≤◌, ◌<◌, ◌-◌, ◌++◌, [], length, slice_get, IfOk, IfSome, Some};
ghost use Rattle.std.specs.List.{remove};
ghost use Rattle.std.specs.Option.{option_map};
ghost use Rattle.wasi_base.specs.Causes.{Rose};
ghost use Rattle.wasi_base.specs.Sink.{write_item, without_item};

use crate::{IoKind, OutOfMemory, Plan, Sink, SinkPlan};
use std::alloc::Global;
use std::marker::Model;

/// A sink in memory, of so much room, that takes bytes as its plan says.
#[derive(Drop)]
pub struct MemSink {
    bytes: Vec<u8>,
    room: usize,
    plan: Vec<SinkPlan>,
    faults: u64,
}

impl Model for MemSink {
    ghost use Rattle.std.specs.Prelude.{◌≤◌, ◌+◌, length, vec_capacity};
    ghost use Rattle.wasi_base.specs.Memory.{SinkMemory};

    ghost Value = { SinkMemory };

    ghost view = { λ s. record { taken = s.bytes.items; limits = record { room = s.room; plan = s.plan.items }; faults = s.faults } };

    ghost invariant = { λ s. length s.bytes.items + s.room ≤ vec_capacity s.bytes };
}

impl MemSink {
    /// An empty sink. All memory that it will need is taken here.
    pub fn new(alloc: Global, room: u64, plan: Vec<SinkPlan>) -> Result<MemSink, OutOfMemory>
        ensures { IfOk result (λ s. s ≡ record { taken = []; limits = record { room = room; plan = plan.items }; faults = 0 }) }
    {
        let Ok(room) = usize::try_from(room) else {
            return Err(OutOfMemory);
        };
        let bytes = Vec::with_capacity(alloc, room)?;
        Ok(MemSink {
            bytes,
            room,
            plan,
            faults: 0,
        })
    }

    /// All bytes that it took, in order.
    pub fn taken(&self) -> &[u8]
        ensures { result.now ≡ self.now.taken }
    {
        self.bytes.as_slice()
    }

    // the item at this place of the plan is done
    fn drop_item(&mut self, place: usize)
        requires { place < length self.old.limits.plan }
        ensures { self.new ≡ record { taken = self.old.taken; limits = record { room = self.old.limits.room; plan = remove self.old.limits.plan place }; faults = self.old.faults } }
    {
        self.plan.remove(place);
    }

    // counts a fault
    fn count_fault(&mut self)
        ensures taken { self.new.taken ≡ self.old.taken }
        ensures limits { self.new.limits ≡ self.old.limits }
        ensures later { self.old.faults ≤ self.new.faults }
        ensures faults { Rose self.old.faults self.new.faults }
    {
        self.faults = self.faults.saturating_add(1);
    }

    // keeps these bytes
    fn keep(&mut self, bytes: &[u8])
        requires { length bytes.now ≤ self.old.limits.room }
        ensures { self.new ≡ record { taken = self.old.taken ++ bytes.now; limits = record { room = self.old.limits.room - length bytes.now; plan = self.old.limits.plan }; faults = self.old.faults } }
    {
        self.room -= bytes.len();
        match self.bytes.extend_from_slice(bytes) {
            Ok(()) => {}
            Err(_) => unreachable!(),
        }
    }

    // the item that a write meets, and its place in the plan
    fn planned(&self) -> Option<(usize, Plan)>
        ensures item { option_map (λ p. p.1) result ≡ write_item self.now.limits.plan }
        ensures within { IfSome result (λ p. p.0 < length self.now.limits.plan) }
        ensures done { IfSome result (λ p. remove self.now.limits.plan p.0 ≡ without_item self.now.limits.plan) }
    {
        write_item(&self.plan)
    }

    fn room(&self) -> usize
        ensures { result ≡ self.now.limits.room }
    {
        self.room
    }
}

fn write_item(plan: &[SinkPlan]) -> Option<(usize, Plan)>
    ensures item { option_map (λ p. p.1) result ≡ write_item plan.now }
    ensures within { IfSome result (λ p. p.0 < length plan.now) }
    ensures done { IfSome result (λ p. remove plan.now p.0 ≡ without_item plan.now) }
{
    for (place, item) in plan.iter().enumerate() {
        match *item {
            SinkPlan::Take(most) => return Some((place, Plan::Take(most))),
            SinkPlan::Fail(kind) => return Some((place, Plan::Fail(kind))),
            SinkPlan::FlushFail(_) => {}
        }
    }
    None
}

impl Sink for MemSink {
    ghost taken = { λ s. Some s.taken };

    ghost limits = { λ s. Some s.limits };

    ghost faults = { λ s. s.faults };

    fn write(&mut self, piece: &[u8]) -> Result<usize, IoKind> {
        if piece.is_empty() {
            return Ok(0);
        }
        let room = self.room();
        match self.planned() {
            Some((place, Plan::Fail(kind))) => {
                self.drop_item(place);
                self.count_fault();
                Err(kind)
            }
            _ if room == 0 => {
                self.count_fault();
                Err(IoKind::Other)
            }
            Some((place, Plan::Take(most))) => {
                self.drop_item(place);
                let count = piece.len().min((most.max(1) as usize).min(room));
                self.keep(&piece[..count]);
                Ok(count)
            }
            None => {
                let count = piece.len().min(room);
                self.keep(&piece[..count]);
                Ok(count)
            }
        }
    }

    fn flush(&mut self) -> Result<(), IoKind> {
        match self.first_item() {
            Some(SinkPlan::FlushFail(kind)) => {
                self.drop_item(0);
                self.count_fault();
                Err(kind)
            }
            Some(SinkPlan::Take(_) | SinkPlan::Fail(_)) | None => Ok(()),
        }
    }
}

impl MemSink {
    fn first_item(&self) -> Option<SinkPlan>
        ensures { result ≡ slice_get self.now.limits.plan 0 }
    {
        self.plan.first().copied()
    }
}
