//! Sessions whose guests ask for their environment, their arguments and the directory in which they
//! begin, and for terminals.

use super::{plays, shows};
use std::test::Fail;

#[test]
fn variables_arguments_and_a_directory(rt: HostRuntime) -> Result<(), Fail> {
    shows(
        &rt,
        rt.alloc(),
        b"guest 0 empty\nenv 0 61 62\nenv 0 63 -\nenv 0 61 64\narg 0 70\narg 0 -\narg 0 70\ncwd 0 2f\ncwd 0 2f61\ncall 0 get-environment\ncall 0 get-arguments\ncall 0 initial-cwd\n",
        b"ok\nok\nok\nok\nok\nok\nok\nok\nok\nenv 61=62,63=-,61=64\nargs 70,-,70\ncwd 2f61\n",
    )?;
    shows(
        &rt,
        rt.alloc(),
        b"guest 0 empty\nguest 1 empty\nenv 1 - -\narg 1 -\ncwd 1 -\ncall 0 get-environment\ncall 0 get-arguments\ncall 0 initial-cwd\ncall 1 get-environment\ncall 1 get-arguments\ncall 1 initial-cwd\ncall 1 exit ok\ncall 1 get-environment\n",
        b"ok\nok\nok\nok\nok\nenv\nargs\nnone\nenv -=-\nargs -\ncwd -\nexit 0\nended\n",
    )
}

#[test]
fn a_long_text(rt: HostRuntime) -> Result<(), Fail> {
    let alloc = rt.alloc();
    let mut digits = String::new(alloc);
    for _ in 0..100u32 {
        digits.push_str("61")?;
    }
    let script = format!(in alloc;
        "guest 0 empty\nenv 0 {digits} 62\narg 0 {digits}\ncwd 0 {digits}\ncall 0 get-environment\ncall 0 get-arguments\ncall 0 initial-cwd\n"
    )?;
    let replies = format!(in alloc;
        "ok\nok\nok\nok\nenv {digits}=62\nargs {digits}\ncwd {digits}\n"
    )?;
    shows(&rt, alloc, script.as_bytes(), replies.as_bytes())
}

#[test]
fn terminals_are_what_lines_say(rt: HostRuntime) -> Result<(), Fail> {
    shows(
        &rt,
        rt.alloc(),
        b"stdio S 8 -\nguest 0 terminal\nstdout 0 S@tty\ncall 0 terminal-stdin\ncall 0 terminal-stdout\ncall 0 terminal-stderr\ncall 0 drop 1\n",
        b"ok\nok\nok\nhandle 0\nhandle 1\nnone\nok\noutput S -\n",
    )?;
    shows(
        &rt,
        rt.alloc(),
        b"stdio S 8 -\nguest 0 shared\nstdout 0 S\nstderr 0 S@tty\ncall 0 terminal-stdin\ncall 0 terminal-stdout\ncall 0 terminal-stderr\n",
        b"ok\nok\nok\nok\nnone\nnone\nhandle 0\noutput S -\n",
    )
}

// A table that is full refuses a terminal, and says nothing where there is none to be made.
#[test]
fn a_full_table(rt: HostRuntime) -> Result<(), Fail> {
    shows(
        &rt,
        rt.alloc(),
        b"guest 0 terminal\ncapacity 0 1\ncall 0 terminal-stdin\ncall 0 terminal-stdout\ncall 0 terminal-stdin\ncall 0 terminal-stdout\n",
        b"ok\nok\nhandle 0\nnone\ntrap resource table is full\nended\n",
    )
}

// Nothing is called on a terminal but its drop.
#[test]
fn terminals_take_no_other_call(rt: HostRuntime) -> Result<(), Fail> {
    let alloc = rt.alloc();
    for open in ["terminal-stdin", "terminal-stdout"] {
        for call in [
            "read 0 1",
            "skip 0 1",
            "poll-read 0 1",
            "check-write 0",
            "write 0 61",
            "flush 0",
            "poll-write 0 61",
            "poll-flush 0",
            "subscribe 0",
            "ready 0",
            "block 0",
        ] {
            let script = format!(in alloc;
                "stdio S 8 -\nguest 0 terminal\nstdout 0 S@tty\ncall 0 {open}\ncall 0 {call}\n"
            )?;
            shows(
                &rt,
                alloc,
                script.as_bytes(),
                b"ok\nok\nok\nhandle 0\ntrap resource has another type\noutput S -\n",
            )?;
        }
    }
    Ok(())
}

// A terminal is read and written as the stream that it is.
#[test]
fn terminals_are_streams(rt: HostRuntime) -> Result<(), Fail> {
    let none = Vec::new(rt.alloc());
    plays(
        &rt,
        rt.alloc(),
        b"guest 0 terminal\nguest 1 shared\ncall 0 get-stdin\ncall 1 get-stdin\ncall 0 read 0 2\ncapture\ndeliver\ncall 1 read 0 1\ncall 0 read 0 5\n",
        b"abcdef",
        none,
        b"ok\nok\nhandle 0\nhandle 0\nbytes -\ncaptured 2\ngave 2\nbytes 61\nbytes 62\n",
        b"cdef",
    )?;
    shows(
        &rt,
        rt.alloc(),
        b"stdio S 8 -\nguest 0 empty\nguest 1 empty\nstdout 0 S@tty\nstdout 1 S\ncall 0 get-stdout\ncall 1 get-stdout\ncall 0 write 0 61\ncall 1 write 0 62\n",
        b"ok\nok\nok\nok\nok\nhandle 0\nhandle 0\nok\nok\noutput S 6162\n",
    )
}
