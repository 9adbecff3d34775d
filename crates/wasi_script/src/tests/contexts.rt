//! The contexts of guests: a main one, and named ones.

use super::{bad_line, check_name, parsed};
use crate::{
    Call, Context, EntryCall, Input, Line, Output, OwnCall, RandomCall, RandomSource, Setting,
};
use std::alloc::Global;
use std::process::Abort;
use std::test::Fail;
use wasi_base::Text;

fn its_context(rt: &impl Abort, line: &Line) -> (u32, u32) {
    match line {
        Line::Context { guest, id, .. } => (*guest, *id),
        _ => panic!(rt; "no context"),
    }
}

#[test]
fn a_context_has_an_input(rt: HostRuntime) -> Result<(), Fail> {
    let text = "pipe P 61\nguest 63 empty\ncontext 63.15 shared\ncontext 063.00 P\n\
                context 00000000000000000063.00000000000000000014 terminal\ncontext 63.9 closed";
    let script = parsed(&rt, rt.alloc(), text)?;
    let [_, _, first, second, third, fourth] = script.steps() else {
        panic!(rt; "six steps");
    };
    assert_eq!(rt; its_context(&rt, first), (63, 15));
    assert_eq!(rt; its_context(&rt, second), (63, 0));
    assert_eq!(rt; its_context(&rt, third), (63, 14));
    assert_eq!(rt; its_context(&rt, fourth), (63, 9));
    assert!(rt; matches!(its_input(&rt, first), Input::Shared));
    match its_input(&rt, second) {
        Input::Named(name) => check_name(&rt, name, b"P"),
        _ => panic!(rt; "no name"),
    }
    assert!(rt; matches!(its_input(&rt, third), Input::Terminal));
    assert!(rt; matches!(its_input(&rt, fourth), Input::Closed));
    Ok(())
}

fn its_input<'a>(rt: &impl Abort, line: &'a Line) -> &'a Input {
    match line {
        Line::Context { input, .. } => input,
        _ => panic!(rt; "no context"),
    }
}

#[test]
fn a_guest_has_sixteen_named_contexts(rt: HostRuntime) -> Result<(), Fail> {
    let mut text = String::from_str(rt.alloc(), "guest 0 empty\nguest 1 empty\n")?;
    for id in 0..16u8 {
        let lines = format!(in rt.alloc(); "context 0.{id} empty\ncontext 1.{id} shared\n")?;
        text.push_str(&lines)?;
    }
    for id in 0..16u8 {
        let lines = format!(in rt.alloc(); "call 0.{id} drop 0\ncall 1.{id} drop 0\n")?;
        text.push_str(&lines)?;
    }
    let script = parsed(&rt, rt.alloc(), &text)?;
    assert_eq!(rt; script.len(), 66);
    assert_eq!(rt; bad_line(&rt, rt.alloc(), &text)?, None);
    text.push_str("context 0.16 empty\n")?;
    assert_eq!(rt; bad_line(&rt, rt.alloc(), &text)?, Some(67));
    Ok(())
}

fn check_context(rt: &impl Abort, context: Context, guest: u32, named: Option<u32>) {
    assert_eq!(rt; context, Context { guest, named });
}

#[test]
fn each_setting_is_of_a_context(rt: HostRuntime) -> Result<(), Fail> {
    let text = "guest 3 empty\ncontext 3.5 empty\nstdout 3.5 sink\nstderr 3.05 closed\n\
                env 3.5 4b 76\narg 3.5 78\ncwd 3.5 2f\nseeded 3.5 secure 7\nseed 3.5 9\n\
                maxrandom 3.5 11\nrandom 3.5 insecure 61\nstdout 3 sink";
    let script = parsed(&rt, rt.alloc(), text)?;
    let [_, _, settings @ .., main] = script.steps() else {
        panic!(rt; "twelve steps");
    };
    let [
        output,
        error,
        key,
        argument,
        directory,
        seeded,
        seed,
        most,
        random,
    ] = settings
    else {
        panic!(rt; "nine settings");
    };
    assert!(rt; matches!(its_setting(&rt, output), Setting::Stdout(Output::Sink)));
    assert!(rt; matches!(its_setting(&rt, error), Setting::Stderr(Output::Closed)));
    match its_setting(&rt, key) {
        Setting::Env { key, value } => {
            check_text(&rt, key, "K");
            check_text(&rt, value, "v");
        }
        _ => panic!(rt; "no variable"),
    }
    match its_setting(&rt, argument) {
        Setting::Arg(text) => check_text(&rt, text, "x"),
        _ => panic!(rt; "no argument"),
    }
    match its_setting(&rt, directory) {
        Setting::Cwd(text) => check_text(&rt, text, "/"),
        _ => panic!(rt; "no directory"),
    }
    assert!(rt;
        matches!(
            its_setting(&rt, seeded),
            Setting::Seeded {
                source: RandomSource::Secure,
                seed: 7
            }
        )
    );
    assert!(rt; matches!(its_setting(&rt, seed), Setting::InsecureSeed(9)));
    assert!(rt; matches!(its_setting(&rt, most), Setting::MaxRandom(11)));
    match its_setting(&rt, random) {
        Setting::Random {
            source: RandomSource::Insecure,
            bytes,
        } => assert_eq!(rt; bytes.len(), 1),
        _ => panic!(rt; "no source"),
    }
    match main {
        Line::Configure { context, .. } => check_context(&rt, *context, 3, None),
        _ => panic!(rt; "no setting"),
    }
    Ok(())
}

fn check_text(rt: &impl Abort, text: &Text, want: &str) {
    assert_eq!(rt; text.as_str(), want);
}

fn its_setting<'a>(rt: &impl Abort, line: &'a Line) -> &'a Setting {
    match line {
        Line::Configure { context, setting } => {
            check_context(rt, *context, 3, Some(5));
            setting
        }
        _ => panic!(rt; "no setting"),
    }
}

#[test]
fn a_call_is_made_through_a_context(rt: HostRuntime) -> Result<(), Fail> {
    let text = "guest 3 empty\ncontext 3.5 empty\ncall 3.5 get-environment\n\
                call 03.005 read 9 4\ncall 3.5 insecure-u64\ncall 3 drop 9";
    let script = parsed(&rt, rt.alloc(), text)?;
    let [_, _, first, second, third, main] = script.steps() else {
        panic!(rt; "six steps");
    };
    assert!(rt;
        matches!(
            its_call(&rt, first, Some(5)),
            Call::Own(OwnCall::Environment)
        )
    );
    assert!(rt;
        matches!(
            its_call(&rt, second, Some(5)),
            Call::On {
                number: 9,
                call: EntryCall::Read { size: 4 }
            }
        )
    );
    assert!(rt;
        matches!(
            its_call(&rt, third, Some(5)),
            Call::Random(RandomCall::Number {
                source: RandomSource::Insecure
            })
        )
    );
    assert!(rt; matches!(its_call(&rt, main, None), Call::Drop { number: 9 }));
    Ok(())
}

fn its_call<'a>(rt: &impl Abort, line: &'a Line, named: Option<u32>) -> &'a Call {
    match line {
        Line::Call { context, call } => {
            check_context(rt, *context, 3, named);
            call
        }
        _ => panic!(rt; "no call"),
    }
}

// Each of these lines is bad after these: guest 0 has contexts 1 and 15, guest 1 has context 1 and
// called by it, and guest 2 has none.
fn check_bad(rt: &impl Abort, alloc: Global, line: &str) -> Result<(), Fail> {
    let streams = "pipe P 61\noutpipe O 5\n";
    let guests = "guest 0 empty\ncontext 0.1 P\ncontext 0.15 shared\nguest 1 empty\n";
    let others = "context 1.1 closed\ncall 1.1 drop 0\nguest 2 empty\n";
    let text = format!(in alloc; "{streams}{guests}{others}{line}\ncapture\n")?;
    assert_eq!(rt; bad_line(rt, alloc, &text)?, Some(10), "{line}");
    Ok(())
}

#[test]
fn a_bad_context_is_told_by_its_number(rt: HostRuntime) -> Result<(), Fail> {
    let bad_lines = [
        "context",
        "context 0.2",
        "context 0.2 empty empty",
        "context 0.16 empty",
        "context 0.18446744073709551616 empty",
        "context 0.000000000000000000002 empty",
        "context 0 empty",
        "context 0. empty",
        "context .2 empty",
        "context . empty",
        "context 0.2. empty",
        "context 0.2.3 empty",
        "context 0..2 empty",
        "context 0.+2 empty",
        "context 0.x empty",
        "context 0,2 empty",
        "context x.2 empty",
        "context 0 2 empty",
        "context 64.2 empty",
        "context 3.2 empty",
        "context 0.1 empty",
        "context 00.001 P",
        "context 0.15 shared",
        "context 1.1 empty",
        "context 1.2 empty",
        "context 0.2 other",
        "context 0.2 sink",
        "context 0.2 N",
        "context 0.2 O",
        "guest 0.2 empty",
        "guest 3.0 empty",
    ];
    for line in bad_lines {
        check_bad(&rt, rt.alloc(), line)?;
    }
    Ok(())
}

#[test]
fn a_bad_setting_of_a_context_is_told_by_its_number(rt: HostRuntime) -> Result<(), Fail> {
    let bad_lines = [
        "capacity 0.1 5",
        "capacity 1 5",
        "stdout 0.2 empty",
        "stdout 0.16 empty",
        "stdout 0. empty",
        "stdout 0.1 P",
        "stdout 0.1 O@tty",
        "stdout 2.1 empty",
        "stdout 3.1 empty",
        "stdout 1.1 empty",
        "stderr 0.2 sink",
        "stderr 1.1 sink",
        "stderr 1 sink",
        "env 0.2 4b 76",
        "env 0.1 4b",
        "env 1.1 4b 76",
        "env 1 4b 76",
        "arg 0.2 78",
        "arg 1.1 78",
        "cwd 0.2 2f",
        "cwd 1.1 2f",
        "random 0.2 secure 00",
        "random 0.1 secure -",
        "random 1.1 secure 00",
        "seeded 0.2 secure 1",
        "seeded 1.1 secure 1",
        "seed 0.2 1",
        "seed 1.1 1",
        "maxrandom 0.2 1",
        "maxrandom 1.1 1",
    ];
    for line in bad_lines {
        check_bad(&rt, rt.alloc(), line)?;
    }
    Ok(())
}

#[test]
fn a_bad_call_through_a_context_is_told_by_its_number(rt: HostRuntime) -> Result<(), Fail> {
    let bad_lines = [
        "call 0.2 drop 0",
        "call 0.16 drop 0",
        "call 0.31 drop 0",
        "call 1.15 drop 0",
        "call 1.0 drop 0",
        "call 2.1 drop 0",
        "call 3.1 drop 0",
        "call 64.1 drop 0",
        "call 0. drop 0",
        "call .1 drop 0",
        "call 0.1.1 drop 0",
        "call 0 1 drop 0",
        "call 0.1",
        "call 0.1 no-such-call",
        "call 0.1 drop",
    ];
    for line in bad_lines {
        check_bad(&rt, rt.alloc(), line)?;
    }
    Ok(())
}
