ghost use Rattle.std.specs.Prelude.{◌≡◌};

use crate::collect::CollectError;
use crate::reply::{PolledReply, ReadReply};
use crate::shared::SharedStdin;
use crate::worker::WorkerEnd;
use std::alloc::Global;
use std::marker::Brand;
use std::sync::ledger::{Blank, Ledger};
use wasi_base::CleanSource;
use wasi_stdin::{Answer, Wait};

const PARTS: u64 = 9223372036854775807;

fn is_empty(reply: &ReadReply) -> bool {
    match reply {
        ReadReply::Bytes(piece) => piece.as_slice().is_empty(),
        _ => false,
    }
}

// two passes are joined, and one is handed in
fn one_of_two<L: Ledger, H: std::sync::Wait>(
    rt: &H,
    alloc: Global,
    blank: Blank,
) -> Option<(u64, u64)>
    requires name { blank.name ≡ L.name }
    requires parts { blank.parts ≡ L.parts }
    requires many { blank.parts ≡ 9223372036854775807 }
{
    let source = CleanSource::new(Vec::new(alloc));
    let (shared, worker) = SharedStdin::<L>::new(alloc, blank, source).ok()?;
    let first = shared.join(rt).ok()?;
    let _second = shared.join(rt).ok()?;
    let mut passes = Vec::new(alloc);
    if passes.push(first).is_err() {
        return None;
    }
    match shared.collect(passes, worker) {
        Err(CollectError::Open { shares, total }) => Some((shares, total)),
        _ => None,
    }
}

#[test]
fn a_pass_that_is_not_handed_in_leaves_the_history_open(rt: HostRuntime) {
    let found = one_of_two::<Brand, HostRuntime>(&rt, rt.alloc(), Blank::new(PARTS));
    assert_eq!(&rt; found, Some((2, 3)));
}

// a worker that is stopped before it read
fn stopped<L: Ledger, H: std::sync::Wait>(rt: &H, alloc: Global, blank: Blank) -> Option<bool>
    requires name { blank.name ≡ L.name }
    requires parts { blank.parts ≡ L.parts }
    requires many { blank.parts ≡ 9223372036854775807 }
{
    let source = CleanSource::new(Vec::from_slice(alloc, b"abc").ok()?);
    let (shared, mut worker) = SharedStdin::<L>::new(alloc, blank, source).ok()?;
    let mut pass = shared.join(rt).ok()?;
    let first = pass.number() == 1;
    let none = is_empty(&shared.read(rt, &mut pass, 2).ok()?);
    let mut wait = Wait::new();
    let ready = shared.block(rt, &mut pass, &mut wait).ok()?;
    shared.stop(rt, &mut pass);
    let over = shared.wait_over(rt, &mut pass, &wait).ok()?;
    let end = shared.run_worker(rt, &mut worker).ok()?;
    let mut passes = Vec::new(alloc);
    if passes.push(pass).is_err() {
        return None;
    }
    let Ok(found) = shared.collect(passes, worker) else {
        return None;
    };
    let told = first && none && !ready && !over && end == WorkerEnd::Stopped;
    let kept = found.pieces.as_slice().is_empty() && found.held.as_slice().is_empty();
    Some(told && kept && found.source.left() == b"abc".as_slice() && found.history.len() == 7)
}

#[test]
fn a_stop_is_seen_before_a_request(rt: HostRuntime) {
    let found = stopped::<Brand, HostRuntime>(&rt, rt.alloc(), Blank::new(PARTS));
    assert_eq!(&rt; found, Some(true));
}

// a request and a stop of the worker's own, and then every other call once
fn called<L: Ledger, H: std::sync::Wait>(rt: &H, alloc: Global, blank: Blank) -> Option<bool>
    requires name { blank.name ≡ L.name }
    requires parts { blank.parts ≡ L.parts }
    requires many { blank.parts ≡ 9223372036854775807 }
{
    let source = CleanSource::new(Vec::from_slice(alloc, b"abc").ok()?);
    let (shared, mut worker) = SharedStdin::<L>::new(alloc, blank, source).ok()?;
    let mut pass = shared.join(rt).ok()?;
    let ready = shared.ready(rt, &mut pass).ok()?;
    let mut wait = Wait::new();
    let pending = match shared.poll_read(rt, &mut pass, &mut wait, 2).ok()? {
        PolledReply::Pending => true,
        _ => false,
    };
    let skipped = shared.skip(rt, &mut pass, 1).ok()?;
    let nothing = is_empty(&shared.read(rt, &mut pass, 0).ok()?);
    shared.stop_worker(rt, &mut worker);
    shared.stop_worker(rt, &mut worker);
    let end = shared.run_worker(rt, &mut worker).ok()?;
    let again = shared.run_worker(rt, &mut worker).ok()?;
    let mut passes = Vec::new(alloc);
    if passes.push(pass).is_err() {
        return None;
    }
    let Ok(found) = shared.collect(passes, worker) else {
        return None;
    };
    let told = !ready && pending && skipped == Answer::Bytes(0) && nothing;
    Some(told && end == WorkerEnd::Stopped && again == end && found.history.len() == 7)
}

#[test]
fn each_call_makes_one_entry(rt: HostRuntime) {
    let found = called::<Brand, HostRuntime>(&rt, rt.alloc(), Blank::new(PARTS));
    assert_eq!(&rt; found, Some(true));
}
