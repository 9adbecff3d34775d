//! What a guest finds at its start, and its terminals.

use super::{bad_line, check_name, parsed};
use crate::{Call, Context, Input, Line, Output, OwnCall, Setting, Standard};
use std::process::Abort;
use std::test::Fail;
use wasi_base::Text;

fn check_text(rt: &impl Abort, text: &Text, want: &str) {
    assert_eq!(rt; text.as_str(), want);
}

#[test]
fn lines_that_set_an_environment(rt: HostRuntime) -> Result<(), Fail> {
    let text = "guest 3 empty\nenv 3 4b C3a9\nenv 03 - -\nenv 3 4b 3d\n\
                arg 3 2d2d78\narg 3 -\ncwd 3 2f746d70\ncwd 3 -";
    let script = parsed(&rt, rt.alloc(), text)?;
    let [_, first, second, third, fourth, fifth, sixth, seventh] = script.steps() else {
        panic!(rt; "eight steps");
    };
    check_env(&rt, first, "K", "\u{e9}");
    check_env(&rt, second, "", "");
    check_env(&rt, third, "K", "=");
    check_arg(&rt, fourth, "--x");
    check_arg(&rt, fifth, "");
    check_cwd(&rt, sixth, "/tmp");
    check_cwd(&rt, seventh, "");
    Ok(())
}

fn check_env(rt: &impl Abort, line: &Line, key: &str, value: &str) {
    match line {
        Line::Configure {
            context: Context {
                guest: 3,
                named: None,
            },
            setting: Setting::Env {
                key: its_key,
                value: its_value,
            },
        } => {
            check_text(rt, its_key, key);
            check_text(rt, its_value, value);
        }
        _ => panic!(rt; "no variable"),
    }
}

fn check_arg(rt: &impl Abort, line: &Line, want: &str) {
    match line {
        Line::Configure {
            context: Context {
                guest: 3,
                named: None,
            },
            setting: Setting::Arg(text),
        } => check_text(rt, text, want),
        _ => panic!(rt; "no argument"),
    }
}

fn check_cwd(rt: &impl Abort, line: &Line, want: &str) {
    match line {
        Line::Configure {
            context: Context {
                guest: 3,
                named: None,
            },
            setting: Setting::Cwd(text),
        } => check_text(rt, text, want),
        _ => panic!(rt; "no directory"),
    }
}

#[test]
fn a_terminal_is_the_shared_input_or_a_standard_output(rt: HostRuntime) -> Result<(), Fail> {
    let text = "stdio S 5 -\nguest 3 terminal\nstdout 3 S@tty\nstderr 3 S@tty\nstdout 3 S";
    let script = parsed(&rt, rt.alloc(), text)?;
    let [_, first, second, third, fourth] = script.steps() else {
        panic!(rt; "five steps");
    };
    check_terminal_input(&rt, first);
    check_terminal(&rt, its_stdout(&rt, second));
    check_terminal(&rt, its_stderr(&rt, third));
    match its_stdout(&rt, fourth) {
        Output::Named(name) => check_name(&rt, name, b"S"),
        _ => panic!(rt; "a terminal"),
    }
    Ok(())
}

fn check_terminal_input(rt: &impl Abort, line: &Line) {
    match line {
        Line::Guest {
            guest: 3,
            input: Input::Terminal,
        } => {}
        _ => panic!(rt; "no terminal"),
    }
}

fn its_stdout<'a>(rt: &impl Abort, line: &'a Line) -> &'a Output {
    match line {
        Line::Configure {
            context: Context {
                guest: 3,
                named: None,
            },
            setting: Setting::Stdout(output),
        } => output,
        _ => panic!(rt; "no standard output"),
    }
}

fn its_stderr<'a>(rt: &impl Abort, line: &'a Line) -> &'a Output {
    match line {
        Line::Configure {
            context: Context {
                guest: 3,
                named: None,
            },
            setting: Setting::Stderr(output),
        } => output,
        _ => panic!(rt; "no standard error"),
    }
}

fn check_terminal(rt: &impl Abort, output: &Output) {
    match output {
        Output::Terminal(name) => check_name(rt, name, b"S"),
        _ => panic!(rt; "no terminal"),
    }
}

#[test]
fn calls_for_an_environment_and_for_terminals(rt: HostRuntime) -> Result<(), Fail> {
    let text = "guest 3 empty\ncall 3 get-environment\ncall 3 get-arguments\ncall 3 initial-cwd\n\
                call 3 terminal-stdin\ncall 3 terminal-stdout\ncall 3 terminal-stderr";
    let script = parsed(&rt, rt.alloc(), text)?;
    let [_, first, second, third, fourth, fifth, sixth] = script.steps() else {
        panic!(rt; "seven steps");
    };
    assert!(rt; matches!(its_call(&rt, first), Call::Own(OwnCall::Environment)));
    assert!(rt; matches!(its_call(&rt, second), Call::Own(OwnCall::Arguments)));
    assert!(rt; matches!(its_call(&rt, third), Call::Own(OwnCall::InitialCwd)));
    assert_eq!(rt; its_terminal(&rt, fourth), Standard::Input);
    assert_eq!(rt; its_terminal(&rt, fifth), Standard::Output);
    assert_eq!(rt; its_terminal(&rt, sixth), Standard::Error);
    Ok(())
}

fn its_call<'a>(rt: &impl Abort, line: &'a Line) -> &'a Call {
    match line {
        Line::Call {
            context: Context {
                guest: 3,
                named: None,
            },
            call,
        } => call,
        _ => panic!(rt; "no call"),
    }
}

fn its_terminal(rt: &impl Abort, line: &Line) -> Standard {
    match its_call(rt, line) {
        Call::Terminal { stream } => *stream,
        _ => panic!(rt; "no terminal"),
    }
}

#[test]
fn a_bad_line_on_environments_is_told_by_its_number(rt: HostRuntime) -> Result<(), Fail> {
    let before = "guest 0 empty\nguest 1 empty\nenv 1 4b 76\narg 1 78\ncwd 1 2f\ncall 1 drop 0\n";
    let bad_lines = [
        "env",
        "env 0",
        "env 0 4b",
        "env 0 4b 76 77",
        "env 0 4 76",
        "env 0 4b 7g",
        "env 0 4b ff",
        "env 0 c3 76",
        "env 0 1*4b 76",
        "env 0 4b 2*76",
        "env 1 4b 76",
        "env 2 4b 76",
        "env 64 4b 76",
        "arg",
        "arg 0",
        "arg 0 78 79",
        "arg 0 7",
        "arg 0 x",
        "arg 0 c328",
        "arg 0 eda080",
        "arg 0 3*78",
        "arg 1 78",
        "arg 2 78",
        "cwd 0",
        "cwd 0 2f 2f",
        "cwd 0 /",
        "cwd 0 80",
        "cwd 0 2*2f",
        "cwd 1 2f",
        "cwd 2 2f",
        "call 0 get-environment 0",
        "call 0 get-arguments -",
        "call 0 initial-cwd 2f",
        "call 0 terminal-stdin 0",
        "call 0 terminal-stdout 0",
        "call 0 terminal-stderr 0",
        "call 2 terminal-stdin",
        "call 2 get-environment",
    ];
    for line in bad_lines {
        let text = format!(in rt.alloc(); "{before}{line}\ncapture\n")?;
        assert_eq!(rt; bad_line(&rt, rt.alloc(), &text)?, Some(7), "{line}");
    }
    Ok(())
}
