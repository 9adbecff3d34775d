use super::*;
use crate::{ArgList, CwdText, EnvList, WasiCliCtx, exit, exit_with_code};
use std::alloc::Global;
use wasi_base::{I32Exit, OutOfMemory};

fn context(alloc: Global) -> Result<WasiCliCtx, OutOfMemory> {
    let mut context = WasiCliCtx::default(alloc);
    context.environment.push(alloc, "a", "b")?;
    context.environment.push(alloc, "a", "b")?;
    context.environment.push(alloc, "", "ä=\0")?;
    context.arguments.push(alloc, "x")?;
    context.arguments.push(alloc, "")?;
    let cwd = CwdText::from_str(alloc, "/ö")?;
    context.initial_cwd = Some(cwd);
    Ok(context)
}

fn has_pairs(rt: &impl Abort, list: &EnvList, want: &[(&str, &str)]) {
    let pairs = list.as_slice();
    assert_eq!(rt; pairs.len(), want.len());
    for (pair, text) in pairs.iter().zip(want.iter()) {
        assert_eq!(rt; pair.0.as_str(), text.0);
        assert_eq!(rt; pair.1.as_str(), text.1);
    }
}

fn has_texts(rt: &impl Abort, list: &ArgList, want: &[&str]) {
    let texts = list.as_slice();
    assert_eq!(rt; texts.len(), want.len());
    for (text, wanted) in texts.iter().zip(want.iter()) {
        assert_eq!(rt; text.as_str(), *wanted);
    }
}

#[test]
fn a_context_is_copied(rt: HostRuntime) -> Result<(), Fail> {
    let alloc = rt.alloc();
    let context = context(alloc)?;
    has_pairs(
        &rt,
        &context.get_environment(alloc)?,
        &[("a", "b"), ("a", "b"), ("", "ä=\0")],
    );
    has_texts(&rt, &context.get_arguments(alloc)?, &["x", ""]);
    let cwd = context.initial_cwd(alloc)?.ok_or("no directory")?;
    assert_eq!(rt; cwd.as_str(), "/ö");
    assert_eq!(rt; context.stdin.p2_stream(), P2In::Closed);
    assert_eq!(rt; context.stdout.p2_stream(), P2Out::Sink);
    assert_eq!(rt; context.stderr.async_stream(), PolledOut::Empty);
    Ok(())
}

#[test]
fn an_empty_context_is_copied(rt: HostRuntime) -> Result<(), Fail> {
    let alloc = rt.alloc();
    let context = WasiCliCtx::default(alloc);
    has_pairs(&rt, &context.get_environment(alloc)?, &[]);
    has_texts(&rt, &context.get_arguments(alloc)?, &[]);
    assert!(rt; context.initial_cwd(alloc)?.is_none());
    Ok(())
}

#[test]
fn exits_have_their_status(rt: HostRuntime) {
    assert_eq!(rt; exit(Ok(())), I32Exit(0));
    assert_eq!(rt; exit(Err(())), I32Exit(1));
    assert_eq!(rt; exit_with_code(255), I32Exit(255));
}
