use crate::{run_chain, run_pipeline};
use std::alloc::Global;
use std::process::Abort;
use std::test::Fail;
use wasi_base::{CleanSource, IoKind, MemSink, MemSource, Plan};
use wasi_words::Parts;

// a script on an input with its plan: the transcript, and what is left of the input
fn plays(
    rt: &impl Abort,
    alloc: Global,
    script: &[u8],
    input: &[u8],
    plan: Vec<Plan>,
    transcript: &[u8],
    left: &[u8],
) -> Result<(), Fail> {
    let mut script = CleanSource::new(Vec::from_slice(alloc, script)?);
    let mut stdin = MemSource::new(Vec::from_slice(alloc, input)?, plan);
    let mut out = MemSink::new(alloc, 4096, Vec::new(alloc))?;
    let answer = run_chain(alloc, &mut script, &mut stdin, &mut out);
    assert!(rt; answer.is_ok());
    assert_eq!(rt; out.taken(), transcript);
    assert_eq!(rt; stdin.left(), left);
    Ok(())
}

#[test]
fn bytes_go_through_stages(rt: HostRuntime) -> Result<(), Fail> {
    let none = Vec::new(rt.alloc());
    plays(
        &rt,
        rt.alloc(),
        b"link 2\nstage squeeze 2\nfeed 9\nfeed 9\npump 1 9\nfeed 9\npump 1 9\nfeed 9\ndrain 9\npump 1 1\ndrain 1\n",
        b"aab",
        none,
        b"ok\nok\ncount 2\ncount 0\ncount 2\ncount 1\ncount 1\nclosed\nbytes 6162\nclosed\nclosed\n",
        b"",
    )?;
    let none = Vec::new(rt.alloc());
    plays(
        &rt,
        rt.alloc(),
        b"link 2\nstage hex 2\nstage upper 2\nfeed 1\npump 1 1\npump 1 1\npump 2 2\ndrain 2\nstop 2\npump 2 1\npump 1 1\ndrain 2\n",
        b"k",
        none,
        b"ok\nok\nok\ncount 1\ncount 1\ncount 0\ncount 2\nbytes 3642\nok\nended\nclosed\nclosed\n",
        b"",
    )
}

#[test]
fn a_fault_closes_the_first_link(rt: HostRuntime) -> Result<(), Fail> {
    let plan = vec![in rt.alloc(); Plan::Take(1), Plan::Fail(IoKind::BrokenPipe)]?;
    plays(
        &rt,
        rt.alloc(),
        b"link 3\nstage copy 2\nfeed 3\nfeed 3\nfeed 3\npump 1 3\npump 1 3\ndrain 3\ndrain 3\n",
        b"abc",
        plan,
        b"ok\nok\ncount 1\nfailed brokenpipe\nclosed\ncount 1\nclosed\nbytes 61\nclosed\n",
        b"bc",
    )
}

#[test]
fn a_stop_leaves_what_is_in_the_links(rt: HostRuntime) -> Result<(), Fail> {
    let none = Vec::new(rt.alloc());
    plays(
        &rt,
        rt.alloc(),
        b"link 4\nstage copy 4\nstage copy 4\nfeed 4\npump 1 2\nstop 1\nfeed 1\nstop 1\npump 2 4\npump 2 4\ndrain 1\ndrain 9\ndrain 1\n",
        b"abcdef",
        none,
        b"ok\nok\nok\ncount 4\ncount 2\nok\nclosed\nended\ncount 2\nclosed\nbytes 61\nbytes 62\nclosed\n",
        b"ef",
    )
}

#[test]
fn a_stop_in_the_front_and_at_the_end(rt: HostRuntime) -> Result<(), Fail> {
    let none = Vec::new(rt.alloc());
    plays(
        &rt,
        rt.alloc(),
        b"link 4\nstage copy 4\nstage copy 4\nfeed 4\nstop 1\nfeed 1\npump 1 1\npump 2 4\ndrain 1\n",
        b"abcdef",
        none,
        b"ok\nok\nok\ncount 4\nok\nclosed\nended\nclosed\nclosed\n",
        b"ef",
    )?;
    let none = Vec::new(rt.alloc());
    plays(
        &rt,
        rt.alloc(),
        b"link 4\nstage copy 4\nstage copy 4\nfeed 4\npump 1 4\npump 2 1\nstop 2\npump 1 4\nfeed 4\nfeed 1\ndrain 4\ndrain 4\n",
        b"abcdef",
        none,
        b"ok\nok\nok\ncount 4\ncount 4\ncount 1\nok\nclosed\ncount 2\nclosed\nbytes 61\nclosed\n",
        b"",
    )
}

#[test]
fn bytes_go_through_fifteen_stages(rt: HostRuntime) -> Result<(), Fail> {
    let none = Vec::new(rt.alloc());
    plays(
        &rt,
        rt.alloc(),
        b"link 2\nstage copy 2\nstage copy 2\nstage copy 2\nstage copy 2\nstage copy 2\nstage copy 2\nstage copy 2\nstage upper 2\nstage copy 2\nstage copy 2\nstage copy 2\nstage copy 2\nstage copy 2\nstage copy 2\nstage hex 4\nfeed 2\npump 1 2\npump 2 2\npump 3 2\npump 4 2\npump 5 2\npump 6 2\npump 7 2\npump 8 2\npump 9 2\npump 10 2\npump 11 2\npump 12 2\npump 13 2\npump 14 2\npump 15 2\ndrain 4\n",
        b"k{z",
        none,
        b"ok\nok\nok\nok\nok\nok\nok\nok\nok\nok\nok\nok\nok\nok\nok\nok\ncount 2\ncount 2\ncount 2\ncount 2\ncount 2\ncount 2\ncount 2\ncount 2\ncount 2\ncount 2\ncount 2\ncount 2\ncount 2\ncount 2\ncount 2\ncount 2\nbytes 34623762\n",
        b"z",
    )
}

// the digits of all that a transcript says was drained, joined
fn drained(alloc: Global, transcript: &[u8]) -> Result<Vec<u8>, Fail> {
    let mut digits = Vec::new(alloc);
    for reply in Parts::new(transcript, b'\n') {
        if let [b'b', b'y', b't', b'e', b's', b' ', hex @ ..] = reply {
            if hex != b"-".as_slice() {
                digits.extend_from_slice(hex)?;
            }
        }
    }
    Ok(digits)
}

// One stage between two links, turned with a few bytes at a time until its output ends.
fn passes(
    rt: &impl Abort,
    alloc: Global,
    kind: &str,
    bounds: (u32, u32),
    most: u32,
    expected: &[u8],
) -> Result<(), Fail> {
    let (first, last) = bounds;
    let links = format!(in alloc; "link {first}\nstage {kind} {last}\n")?;
    let turns = format!(in alloc; "feed {most}\npump 1 {most}\ndrain {most}\n")?;
    let mut script = Vec::from_slice(alloc, links.as_bytes())?;
    for _ in 0..40 {
        script.extend_from_slice(turns.as_bytes())?;
    }
    let mut script = CleanSource::new(script);
    let mut stdin = MemSource::new(Vec::from_slice(alloc, b"aaabbb{{zzzzaab")?, Vec::new(alloc));
    let mut out = MemSink::new(alloc, 4096, Vec::new(alloc))?;
    let answer = run_chain(alloc, &mut script, &mut stdin, &mut out);
    assert!(rt; answer.is_ok());
    assert!(rt; out.taken().ends_with(b"closed\nclosed\nclosed\n"));
    assert_eq!(rt; drained(alloc, out.taken())?.as_slice(), expected);
    assert_eq!(rt; stdin.left().len(), 0);
    Ok(())
}

// Repeats stand at the seams of deliveries, of turns and of the links themselves.
#[test]
fn each_kind_with_small_bounds(rt: HostRuntime) -> Result<(), Fail> {
    let kinds: [(&str, &[u8]); 4] = [
        ("copy", b"6161616262627b7b7a7a7a7a616162"),
        ("upper", b"4141414242427b7b5a5a5a5a414142"),
        (
            "hex",
            b"363136313631363236323632376237623761376137613761363136313632",
        ),
        ("squeeze", b"61627b7a6162"),
    ];
    for (kind, expected) in kinds {
        for first in 2..6u32 {
            for last in 2..6u32 {
                passes(&rt, rt.alloc(), kind, (first, last), 1, expected)?;
                passes(&rt, rt.alloc(), kind, (first, last), 2, expected)?;
                passes(&rt, rt.alloc(), kind, (first, last), 5, expected)?;
            }
        }
    }
    Ok(())
}

#[test]
fn a_stop_in_the_middle(rt: HostRuntime) -> Result<(), Fail> {
    let none = Vec::new(rt.alloc());
    plays(
        &rt,
        rt.alloc(),
        b"link 4\nstage copy 4\nstage upper 4\nstage copy 4\nfeed 4\npump 1 3\npump 2 2\npump 3 1\nstop 2\npump 1 1\npump 2 1\nfeed 4\npump 3 4\npump 3 4\ndrain 4\ndrain 4\n",
        b"abcdef",
        none,
        b"ok\nok\nok\nok\ncount 4\ncount 3\ncount 2\ncount 1\nok\nclosed\nended\ncount 2\ncount 1\nclosed\nbytes 4142\nclosed\n",
        b"",
    )
}

#[test]
fn links_hold_65536_bytes(rt: HostRuntime) -> Result<(), Fail> {
    let none = Vec::new(rt.alloc());
    let input = vec![in rt.alloc(); 0u8; 70000]?;
    plays(
        &rt,
        rt.alloc(),
        b"link 65536\nstage hex 65536\nstage squeeze 2\nfeed 65536\nfeed 1\npump 1 65536\ndrain 1\npump 1 1\npump 2 1\npump 1 1\npump 2 1\npump 1 1\npump 2 65536\npump 1 65536\ndrain 2\n",
        &input,
        none,
        b"ok\nok\nok\ncount 65536\ncount 0\ncount 32768\nbytes -\ncount 0\ncount 1\ncount 0\ncount 1\ncount 1\ncount 65536\ncount 32767\nbytes 30\n",
        &input[65536..],
    )
}

#[test]
fn repeats_need_no_room(rt: HostRuntime) -> Result<(), Fail> {
    let none = Vec::new(rt.alloc());
    plays(
        &rt,
        rt.alloc(),
        b"link 8\nstage squeeze 2\nfeed 8\npump 1 8\ndrain 2\npump 1 8\ndrain 2\n",
        b"aabbbbcc",
        none,
        b"ok\nok\ncount 8\ncount 6\nbytes 6162\ncount 2\nbytes 63\n",
        b"",
    )
}

// the status, and what standard error got
fn ends(
    rt: &impl Abort,
    alloc: Global,
    word: &str,
    script: &[u8],
    status: u8,
    line: &[u8],
) -> Result<(), Fail> {
    let mut words = Vec::new(alloc);
    words.push(String::from_str(alloc, word)?)?;
    words.push(String::from_str(alloc, "input")?)?;
    let mut script = CleanSource::new(Vec::from_slice(alloc, script)?);
    let mut stdin = CleanSource::new(Vec::from_slice(alloc, b"ab")?);
    let mut out = MemSink::new(alloc, 64, Vec::new(alloc))?;
    let mut err = MemSink::new(alloc, 64, Vec::new(alloc))?;
    let answer = run_pipeline(alloc, &words, &mut script, &mut stdin, &mut out, &mut err);
    assert_eq!(rt; answer, status);
    assert_eq!(rt; err.taken(), line);
    Ok(())
}

#[test]
fn words_and_valid_scripts(rt: HostRuntime) -> Result<(), Fail> {
    let alloc = rt.alloc();
    ends(&rt, alloc, "run", b"", 2, b"usage: wasi_pipe pipe FILE\n")?;
    ends(&rt, alloc, "pipe", b"", 0, b"")?;
    ends(
        &rt,
        alloc,
        "pipe",
        b"link 65536\n# note\nstage hex 2",
        0,
        b"",
    )
}

// the script is refused, and this is told
fn refused(rt: &impl Abort, alloc: Global, script: &[u8], line: &[u8]) -> Result<(), Fail> {
    ends(rt, alloc, "pipe", script, 5, line)
}

#[test]
fn each_bad_line_has_its_number(rt: HostRuntime) -> Result<(), Fail> {
    let first: [&[u8]; 8] = [
        b"link 1\n",
        b"link 65537",
        b"link 2 2\n",
        b"link  2\n",
        b"link\t2\n",
        b" link 2\n",
        b"stage copy 2\n",
        b"feed 1\n",
    ];
    for script in first {
        refused(&rt, rt.alloc(), script, b"bad script: line 1\n")?;
    }
    let second: [&[u8]; 8] = [
        b"link 2\nlink 2\n",
        b"link 2\npump 1 1\n",
        b"link 2\nstop 1\n",
        b"link 2\nfeed 0\n",
        b"link 2\nfeed 65537\n",
        b"link 2\ndrain\n",
        b"link 2\nstage Hex 2\n",
        b"# note\nlink +2\nlink 1\n",
    ];
    for script in second {
        refused(&rt, rt.alloc(), script, b"bad script: line 2\n")?;
    }
    let third: [&[u8]; 7] = [
        b"link 2\nstage hex 2\npump 2 1\n",
        b"link 2\nstage hex 2\npump 0 1\n",
        b"link 2\nstage hex 2\npump 1 0\n",
        b"link 2\nstage hex 2\nstop 16\n",
        b"link 2\n\nstage hex 1",
        b"link 2\nfeed 1\nstage hex 2\n",
        b"link 2\nstage copy 00002\ndrain 65536 \n",
    ];
    for script in third {
        refused(&rt, rt.alloc(), script, b"bad script: line 3\n")?;
    }
    refused(
        &rt,
        rt.alloc(),
        b"link 2\nstage copy 2\nstage copy 2\nstage copy 2\nstage copy 2\nstage copy 2\nstage copy 2\nstage copy 2\nstage copy 2\nstage copy 2\nstage copy 2\nstage copy 2\nstage copy 2\nstage copy 2\nstage copy 2\nstage copy 2\nstage copy 2\n",
        b"bad script: line 17\n",
    )
}
