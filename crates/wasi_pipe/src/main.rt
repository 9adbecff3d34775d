//! Runs a script of a pipeline from standard input on the input in a file.
#![tactic(auto)]

use std::alloc::Global;
use std::io::{self, BufWriter};
use std::process::ExitCode;
use wasi_base::{FileSource, StdSink, StdSource, write_all};
use wasi_commands::{command_words, file_named, finish};
use wasi_pipeline::run_pipeline;

fn run(rt: &HostRuntime, alloc: Global) -> io::Result<u8> {
    let words = command_words(rt)?;
    let path = file_named(alloc, &words)?;
    let mut script = StdSource::new(rt.stdin());
    let mut stdin = FileSource::new(rt, path);
    let mut out = StdSink::new(BufWriter::new(alloc, rt.stdout())?);
    let mut err = StdSink::new(rt.stderr());
    let status = run_pipeline(alloc, &words, &mut script, &mut stdin, &mut out, &mut err);
    Ok(finish(status, &mut out, &mut err))
}

fn main(rt: HostRuntime) -> ExitCode {
    match run(&rt, rt.alloc()) {
        Ok(status) => ExitCode::from(status),
        Err(_) => {
            let _ = write_all(&mut StdSink::new(rt.stderr()), b"out of memory\n");
            ExitCode::from(7)
        }
    }
}
