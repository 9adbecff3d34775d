ghost use Rattle.std.specs.Prelude.{◌≡◌, ℕ, ◌<◌, slice_index, ◌≤◌, ◌+◌, ◌*◌, [], ◌∷◌, ◌++◌, nat_le, length, Ok, Err, OnOk, OnErr, IfOk, IfErr, if◌then◌else◌};
ghost use Rattle.wasi_p0.specs.Poll.{Calls, PollsOneoff, RefusesSlot, StopsRewriting};
ghost use Rattle.wasi_p0.specs.Slots.{one_more, overwritten, restoring, rewriting, slot_at};
ghost use Rattle.wasi_p1.specs.declared.call.Call.{Call};
ghost use Rattle.wasi_p1_types.specs.Records.{p1_subscription};

use crate::slot::{self, SIZE};
use std::alloc::Global;
use wasi_p1::p0::{Errno, Error, Subscription};
use wasi_p1::{GuestMemory, Snapshot1};

/// Says of bytes that each is below 256, which the model of a guest's memory leaves open.
pub(crate) fn are_bytes(_bytes: &[u8])
    ensures { (k : ℕ) → slice_index _bytes.now k < 256 }
{}

// Keeps the slot at a place, and writes it there as preview 1 has it.
fn keep_one(
    memory: &mut GuestMemory,
    place: usize,
    kept: &mut Vec<Subscription>,
) -> Result<(), Error>
    ensures kept { OnOk result (one_more place kept.old.items memory.old (slot_at place memory.old) ≡ record { kept = Ok kept.new.items; memory = memory.new }) }
    ensures count { OnOk result (length kept.new.items ≡ length kept.old.items + 1) }
    ensures refused { IfErr result (λ error. RefusesSlot error (slot_at place memory.old)) }
    ensures unchanged { OnErr result (memory.new ≡ memory.old) }
{
    match slot::read(memory.bytes(), place) {
        Ok(subscription) => match kept.push(subscription) {
            Ok(()) => {
                slot::write(memory.bytes_mut(), place, subscription.into());
                Ok(())
            }
            Err(_) => Err(Error::OutOfMemory),
        },
        Err(errno) => Err(Error::Normal(errno)),
    }
}

// Keeps each slot in order, until one is none.
fn keep(
    alloc: Global,
    memory: &mut GuestMemory,
    subs: u32,
    nsubscriptions: u32,
) -> Result<Vec<Subscription>, Error>
    ensures kept { IfOk result (λ kept. rewriting subs nsubscriptions memory.old ≡ record { kept = Ok kept.items; memory = memory.new }) }
    ensures count { IfOk result (λ kept. length kept.items ≡ nsubscriptions) }
    ensures refused { IfErr result (λ error. StopsRewriting subs nsubscriptions memory.old error memory.new) }
{
    let mut kept = Vec::new(alloc);
    for i in 0..nsubscriptions {
        let place = subs as usize + SIZE * i as usize;
        match keep_one(memory, place, &mut kept) {
            Ok(()) => {}
            Err(error) => return Err(error),
        }
    }
    Ok(kept)
}

// Writes a kept slot back, where it still lies in the memory.
fn restore_one(
    memory: &mut GuestMemory,
    place: usize,
    subscription: Subscription,
) -> Result<(), Errno>
    ensures answer { result ≡ (if nat_le (place + 48) (length memory.old) then Ok tt else Err Errno.Fault) }
    ensures memory { memory.new ≡ (if nat_le (place + 48) (length memory.old) then overwritten place (p1_subscription subscription) memory.old else memory.old) }
{
    let length = memory.bytes().len();
    if length < SIZE || length - SIZE < place {
        return Err(Errno::Fault);
    }
    slot::write(memory.bytes_mut(), place, subscription.into());
    Ok(())
}

fn restore(memory: &mut GuestMemory, subs: u32, kept: &[Subscription]) -> Result<(), Errno>
    requires { length kept.now ≤ 4294967295 }
    ensures { restoring subs kept.now memory.old ≡ record { answer = result; memory = memory.new } }
{
    for (i, subscription) in kept.iter().enumerate() {
        match restore_one(memory, subs as usize + SIZE * i, *subscription) {
            Ok(()) => {}
            Err(errno) => return Err(errno),
        }
    }
    Ok(())
}

fn call<T: Snapshot1>(
    object: &mut T,
    memory: &mut GuestMemory,
    subs: u32,
    events: u32,
    kept: &[Subscription],
    nsubscriptions: u32,
) -> Result<u32, Error>
    requires { length kept.now ≤ 4294967295 }
    ensures { Calls (T.answers (Call.PollOneoff subs events nsubscriptions)) subs kept.now (record { object = object.old; memory = memory.old }) (record { answer = result; object = object.new; memory = memory.new }) }
{
    match object.poll_oneoff(memory, subs, events, nsubscriptions) {
        Ok(count) => match restore(memory, subs, kept) {
            Ok(()) => Ok(count),
            Err(errno) => Err(Error::Normal(errno)),
        },
        Err(refusal) => Err(refusal),
    }
}

pub(crate) fn poll_oneoff<T: Snapshot1>(
    object: &mut T,
    alloc: Global,
    memory: &mut GuestMemory,
    subs: u32,
    events: u32,
    nsubscriptions: u32,
) -> Result<u32, Error>
    ensures { PollsOneoff T.fuel_consumed (T.answers (Call.PollOneoff subs events nsubscriptions)) (record { place = subs; count = nsubscriptions }) (record { object = object.old; memory = memory.old }) (record { answer = result; object = object.new; memory = memory.new }) }
{
    match object.consume_fuel(48 * u64::from(nsubscriptions)) {
        Ok(()) => match keep(alloc, memory, subs, nsubscriptions) {
            Ok(kept) => call(
                object,
                memory,
                subs,
                events,
                kept.as_slice(),
                nsubscriptions,
            ),
            Err(error) => Err(error),
        },
        Err(error) => Err(error),
    }
}
