ghost use Rattle.std.specs.Prelude.{◌≡◌, None};
ghost use Rattle.wasi_clocks.specs.Deadlines.{polled, deadline_is_ready};
ghost use Rattle.wasi_host.specs.Calls.{awaited, clocked};
ghost use Rattle.wasi_host.specs.Clocks.{time_told, instant_told, count_told};

use crate::answers::mistaken;
use wasi_base::TrapText;
use wasi_cli::Owner;
use wasi_clocks::{
    Deadline, Instant, Wait3, WallTime, subscribe_duration, subscribe_instant, system_now,
    system_resolution, wait_for, wait_until,
};
use wasi_host::{Clocks, Deed, Entry, OwnEntry};
use wasi_reply::Told;
use wasi_script::{ClockCall, EntryCall};

/// What a call on an entry of what a guest waits for asks to be done.
pub fn awaited(clocks: &Clocks, call: &EntryCall, at: Owner, entry: OwnEntry) -> Deed
    ensures { result ≡ awaited clocks.now call.now at entry }
{
    match (call, entry) {
        (EntryCall::Ready | EntryCall::Block, OwnEntry::Deadline(deadline)) => {
            poll_deadline(clocks, at.number, deadline)
        }
        (EntryCall::Ready | EntryCall::Block, OwnEntry::Wait(wait)) => {
            Deed::Tell(Told::Truth(wait.ready(clocks.monotonic_now)))
        }
        _ => mistaken(),
    }
}

// its entry keeps what the poll leaves
fn poll_deadline(clocks: &Clocks, number: u32, deadline: Deadline) -> Deed
    ensures { result ≡ Deed.Change number (Entry.Own (OwnEntry.Deadline (polled deadline))) (Told.Truth (deadline_is_ready deadline clocks.now.monotonic_now)) }
{
    let mut deadline = deadline;
    let told = Told::Truth(deadline.ready(clocks.monotonic_now));
    Deed::Change {
        number: u64::from(number),
        entry: Entry::Own(OwnEntry::Deadline(deadline)),
        told,
    }
}

/// What a call on the clocks asks to be done.
pub fn clocked(clocks: &Clocks, call: ClockCall) -> Deed
    ensures { result ≡ clocked clocks.now call }
{
    let now = clocks.monotonic_now;
    match call {
        ClockCall::WallNow => Deed::Tell(told_time(clocks.wall_now)),
        ClockCall::WallResolution => Deed::Tell(told_time(clocks.wall_resolution)),
        ClockCall::SystemNow => Deed::Tell(told_instant(system_now(clocks.wall_now))),
        ClockCall::SystemResolution => {
            Deed::Tell(told_count(system_resolution(clocks.wall_resolution)))
        }
        ClockCall::MonotonicNow => Deed::Tell(Told::Count(now)),
        ClockCall::MonotonicResolution => Deed::Tell(Told::Count(clocks.monotonic_resolution)),
        ClockCall::SubscribeInstant { when } => make_deadline(subscribe_instant(now, when)),
        ClockCall::SubscribeDuration { duration } => {
            make_deadline(subscribe_duration(now, duration))
        }
        ClockCall::WaitUntil { when } => make_wait(wait_until(now, when)),
        ClockCall::WaitFor { duration } => make_wait(wait_for(now, duration)),
    }
}

fn make_deadline(deadline: Deadline) -> Deed
    ensures { result ≡ Deed.Make (Entry.Own (OwnEntry.Deadline deadline)) None }
{
    Deed::Make {
        entry: Entry::Own(OwnEntry::Deadline(deadline)),
        parent: None,
    }
}

fn make_wait(wait: Wait3) -> Deed
    ensures { result ≡ Deed.Make (Entry.Own (OwnEntry.Wait wait)) None }
{
    Deed::Make {
        entry: Entry::Own(OwnEntry::Wait(wait)),
        parent: None,
    }
}

fn told_time(time: WallTime) -> Told
    ensures { result ≡ time_told time }
{
    Told::Time {
        seconds: time.seconds,
        nanoseconds: time.nanoseconds,
    }
}

fn told_instant(answer: Result<Instant, TrapText>) -> Told
    ensures { result ≡ instant_told answer }
{
    match answer {
        Ok(instant) => Told::Time {
            seconds: instant.seconds.unsigned_abs(),
            nanoseconds: instant.nanoseconds,
        },
        Err(text) => Told::Trap(text),
    }
}

fn told_count(answer: Result<u64, TrapText>) -> Told
    ensures { result ≡ count_told answer }
{
    match answer {
        Ok(count) => Told::Count(count),
        Err(text) => Told::Trap(text),
    }
}
