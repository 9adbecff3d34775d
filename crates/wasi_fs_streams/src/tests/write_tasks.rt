use super::{FILE, TASK_FILE, no_bytes, store_of};
use crate::{TaskTurn, WriteStreamConsumer};
use std::alloc::Global;
use std::process::Abort;
use std::test::Fail;
use wasi_base::IoKind;
use wasi_fs::{At, MemStore};
use wasi_fs_types::ErrorCode;
use wasi_producers::{Consumed, StreamResult};

// what is done with a stream, and what it is to answer
#[derive(Drop)]
enum Step {
    Wait(&'static [u8], StreamResult, u64),
    Finish(&'static [u8], StreamResult, u64),
    Turn(TaskTurn),
}

fn polls(
    rt: &impl Abort,
    alloc: Global,
    stream: &mut WriteStreamConsumer,
    store: &mut MemStore,
    piece: &[u8],
    finish: bool,
    want: Consumed,
) {
    let answer = stream.poll_consume(alloc, store, piece, finish);
    assert_eq!(rt; answer, Ok(want));
}

fn follows(
    rt: &impl Abort,
    alloc: Global,
    stream: &mut WriteStreamConsumer,
    store: &mut MemStore,
    steps: &[Step],
) {
    for step in steps {
        match step {
            Step::Wait(piece, answer, taken) => {
                let want = Consumed {
                    result: *answer,
                    taken: *taken,
                };
                polls(rt, alloc, stream, store, *piece, false, want);
            }
            Step::Finish(piece, answer, taken) => {
                let want = Consumed {
                    result: *answer,
                    taken: *taken,
                };
                polls(rt, alloc, stream, store, *piece, true, want);
            }
            Step::Turn(turn) => assert_eq!(rt; stream.turn(store), Ok(*turn)),
        }
    }
}

#[test]
fn a_file_is_written_by_a_task(rt: HostRuntime) -> Result<(), Fail> {
    let alloc = rt.alloc();
    let mut store = store_of(0, no_bytes(alloc), None);
    let mut stream = WriteStreamConsumer::new(TASK_FILE, At::Offset(0));
    let steps = [
        Step::Wait(b"abc", StreamResult::Pending, 0),
        Step::Turn(TaskTurn::Started),
        Step::Finish(b"abc", StreamResult::Pending, 0),
        Step::Turn(TaskTurn::Done),
        Step::Wait(b"abc", StreamResult::Completed, 3),
    ];
    follows(&rt, alloc, &mut stream, &mut store, &steps);
    stream.close();
    assert_eq!(&rt; stream.result(), Some(Ok(())));
    assert!(&rt; store.bytes.as_slice() == b"abc".as_slice());
    Ok(())
}

#[test]
fn a_task_keeps_its_own_piece(rt: HostRuntime) -> Result<(), Fail> {
    let alloc = rt.alloc();
    let mut store = store_of(0, no_bytes(alloc), None);
    let mut stream = WriteStreamConsumer::new(TASK_FILE, At::Offset(0));
    let steps = [
        Step::Finish(b"x", StreamResult::Cancelled, 0),
        Step::Turn(TaskTurn::Idle),
        Step::Wait(b"y", StreamResult::Pending, 0),
        Step::Finish(b"y", StreamResult::Cancelled, 0),
        Step::Wait(b"abc", StreamResult::Pending, 0),
        Step::Turn(TaskTurn::Started),
        Step::Turn(TaskTurn::Done),
        Step::Turn(TaskTurn::Idle),
        // what is taken is what was written, whatever this poll shows
        Step::Finish(b"z", StreamResult::Completed, 3),
    ];
    follows(&rt, alloc, &mut stream, &mut store, &steps);
    assert!(&rt; store.bytes.as_slice() == b"abc".as_slice());
    Ok(())
}

#[test]
fn a_task_that_stands_is_finished_before_a_close(rt: HostRuntime) -> Result<(), Fail> {
    let alloc = rt.alloc();
    let mut store = store_of(0, no_bytes(alloc), None);
    let mut stream = WriteStreamConsumer::new(TASK_FILE, At::End);
    let start = [
        Step::Wait(b"ab", StreamResult::Pending, 0),
        Step::Turn(TaskTurn::Started),
    ];
    follows(&rt, alloc, &mut stream, &mut store, &start);
    stream.finish_task(&mut store)?;
    stream.close();
    assert!(&rt; store.bytes.as_slice() == b"ab".as_slice());
    assert_eq!(&rt; stream.result(), Some(Ok(())));
    // one that is closed without that writes nothing
    let mut stream = WriteStreamConsumer::new(TASK_FILE, At::End);
    follows(&rt, alloc, &mut stream, &mut store, &start);
    stream.close();
    let ended = [
        Step::Turn(TaskTurn::Idle),
        Step::Wait(b"ab", StreamResult::Dropped, 0),
    ];
    follows(&rt, alloc, &mut stream, &mut store, &ended);
    assert!(&rt; store.bytes.as_slice() == b"ab".as_slice());
    Ok(())
}

#[test]
fn faults_before_and_between_turns_of_a_write(rt: HostRuntime) -> Result<(), Fail> {
    let alloc = rt.alloc();
    let mut store = store_of(0, no_bytes(alloc), Some(IoKind::Other));
    let mut stream = WriteStreamConsumer::new(TASK_FILE, At::End);
    let start = [
        Step::Wait(b"ab", StreamResult::Pending, 0),
        Step::Turn(TaskTurn::Started),
    ];
    follows(&rt, alloc, &mut stream, &mut store, &start);
    assert_eq!(&rt; store.faults, 0);
    let end = [
        Step::Turn(TaskTurn::Done),
        Step::Wait(b"ab", StreamResult::Dropped, 0),
    ];
    follows(&rt, alloc, &mut stream, &mut store, &end);
    assert_eq!(&rt; store.faults, 1);
    assert_eq!(&rt; stream.result(), Some(Err(ErrorCode::Io)));
    let mut stream = WriteStreamConsumer::new(TASK_FILE, At::End);
    follows(&rt, alloc, &mut stream, &mut store, &start);
    store.fail_next = Some(IoKind::PermissionDenied);
    follows(&rt, alloc, &mut stream, &mut store, &end);
    assert_eq!(&rt; stream.result(), Some(Err(ErrorCode::Access)));
    assert!(&rt; store.bytes.is_empty());
    Ok(())
}

#[test]
fn a_written_task_past_the_greatest_number(rt: HostRuntime) -> Result<(), Fail> {
    let alloc = rt.alloc();
    let place = At::Offset(u64::MAX - 1);
    let mut store = store_of(u64::MAX - 1, no_bytes(alloc), None);
    let mut stream = WriteStreamConsumer::new(TASK_FILE, place);
    let steps = [
        Step::Wait(b"abc", StreamResult::Pending, 0),
        Step::Turn(TaskTurn::Started),
        Step::Turn(TaskTurn::Done),
        Step::Wait(b"abc", StreamResult::Dropped, 3),
    ];
    follows(&rt, alloc, &mut stream, &mut store, &steps);
    assert_eq!(&rt; stream.result(), Some(Err(ErrorCode::Overflow)));
    assert!(&rt; store.bytes.as_slice() == b"abc".as_slice());
    Ok(())
}

// what the blocking path leaves of a file of two bytes
fn written_at_once(alloc: Global, place: At) -> Result<Vec<u8>, Fail> {
    let mut store = store_of(0, Vec::from_slice(alloc, b"--")?, None);
    let mut stream = WriteStreamConsumer::new(FILE, place);
    let _ = stream.poll_consume(alloc, &mut store, b"abc", false)?;
    Ok(store.bytes)
}

// does one of the four: a poll of what is left, a poll that is to finish, a turn, a close; the
// answer is what was not yet taken
fn does<'a>(
    alloc: Global,
    stream: &mut WriteStreamConsumer,
    store: &mut MemStore,
    what: u16,
    rest: &'a [u8],
) -> Result<&'a [u8], Fail> {
    if what == 2 {
        let _ = stream.turn(store)?;
        return Ok(rest);
    }
    if what == 3 {
        stream.finish_task(store)?;
        stream.close();
        return Ok(rest);
    }
    let answer = stream.poll_consume(alloc, store, rest, what == 1)?;
    let taken = (answer.taken as usize).min(rest.len());
    Ok(&rest[taken..])
}

// six things that a number tells, in order; what was not taken
fn interleaved(
    alloc: Global,
    stream: &mut WriteStreamConsumer,
    store: &mut MemStore,
    number: u16,
) -> Result<usize, Fail> {
    let mut left = number;
    let mut rest = b"abc".as_slice();
    for _ in 0..6 {
        rest = does(alloc, stream, store, left % 4, rest)?;
        left /= 4;
    }
    Ok(rest.len())
}

fn agrees(rt: &impl Abort, alloc: Global, place: At, whole: &[u8]) -> Result<(), Fail> {
    for number in 0..4096u16 {
        let mut store = store_of(0, Vec::from_slice(alloc, b"--")?, None);
        let mut stream = WriteStreamConsumer::new(TASK_FILE, place);
        let left = interleaved(alloc, &mut stream, &mut store, number)?;
        let bytes = store.bytes.as_slice();
        assert!(rt; left == 0 || left == 3);
        assert!(rt; bytes == whole || (left == 3 && bytes == b"--".as_slice()));
        if let Some(sent) = stream.result() {
            assert_eq!(rt; sent, Ok(()));
        }
    }
    Ok(())
}

#[test]
fn every_interleaving_of_six_writes_as_the_blocking_path(rt: HostRuntime) -> Result<(), Fail> {
    let alloc = rt.alloc();
    for place in [At::End, At::Offset(1), At::Offset(4)] {
        let whole = written_at_once(alloc, place)?;
        agrees(&rt, alloc, place, whole.as_slice())?;
    }
    Ok(())
}
