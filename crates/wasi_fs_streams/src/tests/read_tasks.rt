use super::{FILE, TASK_FILE, store_of};
use crate::{ReadStreamProducer, TaskTurn};
use std::alloc::Global;
use std::process::Abort;
use std::test::Fail;
use wasi_base::IoKind;
use wasi_fs::MemStore;
use wasi_fs_types::ErrorCode;
use wasi_producers::StreamResult;

const NOTHING: &[u8] = b"";

// what is done with a stream, and what it is to answer
#[derive(Drop)]
enum Step {
    Wait(StreamResult, &'static [u8]),
    Finish(StreamResult, &'static [u8]),
    Turn(TaskTurn),
}

fn polls(
    rt: &impl Abort,
    alloc: Global,
    stream: &mut ReadStreamProducer,
    store: &mut MemStore,
    finish: bool,
    want: (StreamResult, &[u8]),
) {
    match stream.poll_produce(alloc, store, None, finish) {
        Ok(answer) => {
            assert_eq!(rt; answer.result, want.0);
            assert!(rt; answer.bytes.as_slice() == want.1);
        }
        Err(_) => assert!(rt; false),
    }
}

fn follows(
    rt: &impl Abort,
    alloc: Global,
    stream: &mut ReadStreamProducer,
    store: &mut MemStore,
    steps: &[Step],
) {
    for step in steps {
        match step {
            Step::Wait(answer, bytes) => {
                polls(rt, alloc, stream, store, false, (*answer, *bytes));
            }
            Step::Finish(answer, bytes) => {
                polls(rt, alloc, stream, store, true, (*answer, *bytes));
            }
            Step::Turn(turn) => assert_eq!(rt; stream.turn(alloc, store), Ok(*turn)),
        }
    }
}

#[test]
fn a_file_is_read_by_tasks(rt: HostRuntime) -> Result<(), Fail> {
    let alloc = rt.alloc();
    let mut store = store_of(0, Vec::from_slice(alloc, b"hello")?, None);
    let mut stream = ReadStreamProducer::new(TASK_FILE, 1);
    let steps = [
        Step::Finish(StreamResult::Cancelled, NOTHING),
        Step::Wait(StreamResult::Pending, NOTHING),
        Step::Turn(TaskTurn::Started),
        Step::Finish(StreamResult::Pending, NOTHING),
        Step::Turn(TaskTurn::Done),
        Step::Wait(StreamResult::Completed, b"ello"),
        Step::Wait(StreamResult::Pending, NOTHING),
        Step::Turn(TaskTurn::Started),
        Step::Turn(TaskTurn::Done),
        Step::Wait(StreamResult::Dropped, NOTHING),
        Step::Turn(TaskTurn::Idle),
    ];
    follows(&rt, alloc, &mut stream, &mut store, &steps);
    assert_eq!(&rt; stream.result(), Some(Ok(())));
    Ok(())
}

// a guest that polls with room for so much gets what the task read
fn gets(
    rt: &impl Abort,
    alloc: Global,
    store: &mut MemStore,
    room: Option<u64>,
    count: usize,
) -> Result<(), Fail> {
    let mut stream = ReadStreamProducer::new(TASK_FILE, 0);
    let first = stream.poll_produce(alloc, store, room, false)?;
    assert_eq!(rt; first.result, StreamResult::Pending);
    assert_eq!(rt; stream.turn(alloc, store), Ok(TaskTurn::Started));
    assert_eq!(rt; stream.turn(alloc, store), Ok(TaskTurn::Done));
    assert_eq!(rt; stream.turn(alloc, store), Ok(TaskTurn::Idle));
    let answer = stream.poll_produce(alloc, store, room, true)?;
    assert_eq!(rt; answer.result, StreamResult::Completed);
    assert_eq!(rt; answer.bytes.len(), count);
    Ok(())
}

#[test]
fn a_task_reads_8192_bytes(rt: HostRuntime) -> Result<(), Fail> {
    let alloc = rt.alloc();
    let mut store = store_of(0, vec![in alloc; 1u8; 70000]?, None);
    for room in [None, Some(0), Some(1), Some(u64::MAX)] {
        gets(&rt, alloc, &mut store, room, 8192)?;
    }
    Ok(())
}

#[test]
fn a_fault_is_met_by_the_second_turn(rt: HostRuntime) -> Result<(), Fail> {
    let alloc = rt.alloc();
    let mut store = store_of(0, Vec::from_slice(alloc, b"hi")?, Some(IoKind::Other));
    let mut stream = ReadStreamProducer::new(TASK_FILE, 0);
    let steps = [
        Step::Wait(StreamResult::Pending, NOTHING),
        Step::Turn(TaskTurn::Started),
        Step::Wait(StreamResult::Pending, NOTHING),
    ];
    follows(&rt, alloc, &mut stream, &mut store, &steps);
    assert_eq!(&rt; store.faults, 0);
    let steps = [Step::Turn(TaskTurn::Done), Step::Turn(TaskTurn::Idle)];
    follows(&rt, alloc, &mut stream, &mut store, &steps);
    assert_eq!(&rt; store.faults, 1);
    assert_eq!(&rt; stream.result(), None);
    let steps = [Step::Finish(StreamResult::Dropped, NOTHING)];
    follows(&rt, alloc, &mut stream, &mut store, &steps);
    assert_eq!(&rt; stream.result(), Some(Err(ErrorCode::Io)));
    stream.close();
    assert_eq!(&rt; stream.result(), Some(Err(ErrorCode::Io)));
    Ok(())
}

#[test]
fn a_fault_that_is_planned_between_turns(rt: HostRuntime) -> Result<(), Fail> {
    let alloc = rt.alloc();
    let mut store = store_of(0, Vec::from_slice(alloc, b"hi")?, None);
    let mut stream = ReadStreamProducer::new(TASK_FILE, 0);
    let start = [
        Step::Wait(StreamResult::Pending, NOTHING),
        Step::Turn(TaskTurn::Started),
    ];
    follows(&rt, alloc, &mut stream, &mut store, &start);
    store.fail_next = Some(IoKind::BrokenPipe);
    let end = [
        Step::Turn(TaskTurn::Done),
        Step::Wait(StreamResult::Dropped, NOTHING),
    ];
    follows(&rt, alloc, &mut stream, &mut store, &end);
    assert_eq!(&rt; stream.result(), Some(Err(ErrorCode::Pipe)));
    // one that is closed before its task is polled sends Ok
    let mut stream = ReadStreamProducer::new(TASK_FILE, 0);
    follows(&rt, alloc, &mut stream, &mut store, &start);
    store.fail_next = Some(IoKind::BrokenPipe);
    let done = [Step::Turn(TaskTurn::Done)];
    follows(&rt, alloc, &mut stream, &mut store, &done);
    stream.close();
    assert_eq!(&rt; stream.result(), Some(Ok(())));
    let ended = [
        Step::Wait(StreamResult::Dropped, NOTHING),
        Step::Turn(TaskTurn::Idle),
    ];
    follows(&rt, alloc, &mut stream, &mut store, &ended);
    Ok(())
}

#[test]
fn a_task_past_the_greatest_number(rt: HostRuntime) -> Result<(), Fail> {
    let alloc = rt.alloc();
    let mut store = store_of(u64::MAX - 1, Vec::from_slice(alloc, b"hi")?, None);
    let mut stream = ReadStreamProducer::new(TASK_FILE, u64::MAX - 1);
    let steps = [
        Step::Wait(StreamResult::Pending, NOTHING),
        Step::Turn(TaskTurn::Started),
        Step::Turn(TaskTurn::Done),
        Step::Wait(StreamResult::Dropped, b"hi"),
        Step::Wait(StreamResult::Dropped, NOTHING),
        Step::Turn(TaskTurn::Idle),
    ];
    follows(&rt, alloc, &mut stream, &mut store, &steps);
    assert_eq!(&rt; stream.result(), Some(Err(ErrorCode::Overflow)));
    Ok(())
}

// what the blocking path hands out, poll by poll
fn read_at_once(
    rt: &impl Abort,
    alloc: Global,
    store: &mut MemStore,
    offset: u64,
) -> Result<Vec<u8>, Fail> {
    let mut stream = ReadStreamProducer::new(FILE, offset);
    let mut out = Vec::new(alloc);
    for _ in 0..2 {
        let answer = stream.poll_produce(alloc, store, None, false)?;
        out.extend_from_slice(answer.bytes.as_slice())?;
    }
    assert_eq!(rt; stream.result(), Some(Ok(())));
    Ok(out)
}

// does one of the four: a poll, a poll that is to finish, a turn, a close
fn does(
    alloc: Global,
    stream: &mut ReadStreamProducer,
    store: &mut MemStore,
    what: u16,
    out: &mut Vec<u8>,
) -> Result<(), Fail> {
    if what == 2 {
        let _ = stream.turn(alloc, store)?;
        return Ok(());
    }
    if what == 3 {
        stream.close();
        return Ok(());
    }
    let answer = stream.poll_produce(alloc, store, None, what == 1)?;
    Ok(out.extend_from_slice(answer.bytes.as_slice())?)
}

// six things that a number tells, in order; whether none of them is a close
fn interleaved(
    alloc: Global,
    stream: &mut ReadStreamProducer,
    store: &mut MemStore,
    number: u16,
    out: &mut Vec<u8>,
) -> Result<bool, Fail> {
    let mut left = number;
    let mut is_open = true;
    for _ in 0..6 {
        does(alloc, stream, store, left % 4, out)?;
        is_open = is_open && left % 4 != 3;
        left /= 4;
    }
    Ok(is_open)
}

fn agrees(
    rt: &impl Abort,
    alloc: Global,
    store: &mut MemStore,
    offset: u64,
    whole: &[u8],
) -> Result<(), Fail> {
    for number in 0..4096u16 {
        let mut stream = ReadStreamProducer::new(TASK_FILE, offset);
        let mut out = Vec::new(alloc);
        let is_open = interleaved(alloc, &mut stream, store, number, &mut out)?;
        assert!(rt; out.is_empty() || out.as_slice() == whole);
        match stream.result() {
            Some(sent) => assert_eq!(rt; sent, Ok(())),
            None => assert!(rt; is_open),
        }
        let is_whole = out.as_slice() == whole;
        assert!(rt; is_whole || !is_open || stream.result().is_none());
    }
    Ok(())
}

#[test]
fn every_interleaving_of_six_reads_as_the_blocking_path(rt: HostRuntime) -> Result<(), Fail> {
    let alloc = rt.alloc();
    let mut store = store_of(0, Vec::from_slice(alloc, b"hello")?, None);
    for offset in [1, 5] {
        let whole = read_at_once(&rt, alloc, &mut store, offset)?;
        agrees(&rt, alloc, &mut store, offset, whole.as_slice())?;
    }
    Ok(())
}
