//! Streams that have a task, and its turns.

use super::{bad_line, check_bytes, check_name, only_step, parsed};
use crate::{InputDeclaration, Line, OutputDeclaration, StreamTask};
use std::test::Fail;
use wasi_base::{IoKind, Plan, SinkPlan};

#[test]
fn an_input_is_read_ahead_by_its_plan(rt: HostRuntime) -> Result<(), Fail> {
    let script = only_step(&rt, rt.alloc(), "asyncin A 6162 t1,fother")?;
    match script.line(0) {
        Line::Input {
            name,
            input: InputDeclaration::Async { bytes, plan },
        } => {
            let items = plan.to_vec(rt.alloc())?;
            check_name(&rt, name, b"A");
            assert_eq!(rt;
                items.as_slice(),
                [Plan::Take(1), Plan::Fail(IoKind::Other)].as_slice()
            );
            check_bytes(&rt, rt.alloc(), bytes, b"ab")
        }
        _ => panic!(rt; "asyncin"),
    }
}

#[test]
fn an_output_buffers_its_budget(rt: HostRuntime) -> Result<(), Fail> {
    let script = only_step(&rt, rt.alloc(), "buffered B 64 lother 1048576")?;
    match script.line(0) {
        Line::Output {
            name,
            output: OutputDeclaration::Buffered { room, plan, budget },
        } => {
            let items = plan.to_vec(rt.alloc())?;
            check_name(&rt, name, b"B");
            assert_eq!(rt;
                items.as_slice(),
                [SinkPlan::FlushFail(IoKind::Other)].as_slice()
            );
            assert_eq!(rt; *room, 64);
            assert_eq!(rt; *budget, 1048576);
            Ok(())
        }
        _ => panic!(rt; "buffered"),
    }
}

#[test]
fn a_turn_names_a_task(rt: HostRuntime) -> Result<(), Fail> {
    let text = "asyncin A - -\nbuffered B 8 - 1\nturn in A\nturn out B";
    let script = parsed(&rt, rt.alloc(), text)?;
    match script.steps() {
        [
            _,
            _,
            Line::Turn(StreamTask::Reader(input)),
            Line::Turn(StreamTask::Writer(output)),
        ] => {
            check_name(&rt, input, b"A");
            check_name(&rt, output, b"B");
            Ok(())
        }
        _ => panic!(rt; "turns"),
    }
}

#[test]
fn a_bad_line_on_tasks_is_told_by_its_number(rt: HostRuntime) -> Result<(), Fail> {
    let before =
        "asyncin A - -\nbuffered B 8 - 1\npipe P -\noutpipe O 8\nguest 0 A\nstdout 0 B\nstderr 0 B\n";
    let bad_lines = [
        "turn",
        "turn in",
        "turn up A",
        "turn in A A",
        "turn in B",
        "turn in P",
        "turn in Q",
        "turn out A",
        "turn out O",
        "asyncin C -",
        "asyncin C - lother",
        "asyncin B - -",
        "buffered D 8 -",
        "buffered D 8 - 0",
        "buffered D 8 - 1048577",
        "buffered D 1048577 - 1",
        "buffered A 8 - 1",
        "guest 1 B",
        "stdout 0 A",
    ];
    for line in bad_lines {
        let text = format!(in rt.alloc(); "{before}{line}\ncapture\n")?;
        assert_eq!(rt; bad_line(&rt, rt.alloc(), &text)?, Some(8), "{line}");
    }
    let text = format!(in rt.alloc();
        "{before}call 0 async-stdin\ncall 0 async-stdout\ncall 0 async-stderr\n"
    )?;
    assert_eq!(rt; bad_line(&rt, rt.alloc(), &text)?, None);
    Ok(())
}
