use super::{Ending, USAGE, ends};
use std::alloc::Global;
use std::process::Abort;
use std::test::Fail;
use wasi_base::{IoKind, MemSource, SinkPlan};

fn reports(rt: &impl Abort, alloc: Global, words: &[&str], out: &'static [u8]) -> Result<(), Fail> {
    let script = MemSource::new(Vec::new(alloc), Vec::new(alloc));
    let ending = Ending {
        status: 0,
        out,
        err: b"",
    };
    ends(rt, alloc, words, script, Vec::new(alloc), &ending)
}

fn is_refused(rt: &impl Abort, alloc: Global, words: &[&str]) -> Result<(), Fail> {
    let script = MemSource::new(Vec::new(alloc), Vec::new(alloc));
    let ending = Ending {
        status: 2,
        out: b"",
        err: USAGE,
    };
    ends(rt, alloc, words, script, Vec::new(alloc), &ending)
}

// the counts are those of another program, written from the format's description alone
#[test]
fn generated_runs_report_their_counts(rt: HostRuntime) -> Result<(), Fail> {
    let alloc = rt.alloc();
    reports(
        &rt,
        alloc,
        &["gen", "0", "0"],
        b"steps 5\nprinted 33\nleft 0\n",
    )?;
    reports(
        &rt,
        alloc,
        &["gen", "0", "1"],
        b"steps 6\nprinted 41\nleft 8\n",
    )?;
    reports(
        &rt,
        alloc,
        &["gen", "1", "8"],
        b"steps 13\nprinted 95\nleft 28\n",
    )?;
    reports(
        &rt,
        alloc,
        &["gen", "18446744073709551615", "8"],
        b"steps 13\nprinted 95\nleft 64\n",
    )?;
    reports(
        &rt,
        alloc,
        &["gen", "1", "100000"],
        b"steps 100005\nprinted 1176176\nleft 518532\n",
    )
}

#[test]
fn other_words_for_a_generated_run_are_refused(rt: HostRuntime) -> Result<(), Fail> {
    let alloc = rt.alloc();
    is_refused(&rt, alloc, &["gen", "1", "100001"])?;
    is_refused(&rt, alloc, &["gen", "1"])?;
    is_refused(&rt, alloc, &["gen", "1", "8", "9"])?;
    is_refused(&rt, alloc, &["gen", "", "8"])?;
    is_refused(&rt, alloc, &["gen", "x", "8"])?;
    is_refused(&rt, alloc, &["gen", "1", "-8"])?;
    is_refused(&rt, alloc, &["gen", "18446744073709551616", "8"])?;
    is_refused(&rt, alloc, &["generate", "1", "8"])
}

#[test]
fn a_report_is_cut_off_by_its_output(rt: HostRuntime) -> Result<(), Fail> {
    let alloc = rt.alloc();
    let script = MemSource::new(Vec::new(alloc), Vec::new(alloc));
    let plan = Vec::from_array(alloc, [SinkPlan::Take(3), SinkPlan::Fail(IoKind::Other)])?;
    let ending = Ending {
        status: 6,
        out: b"ste",
        err: b"write fault\n",
    };
    ends(&rt, alloc, &["gen", "1", "8"], script, plan, &ending)
}
