//! Sessions whose lines set the clocks, and whose guests wait for them.

use super::shows;
use std::test::Fail;

#[test]
fn a_deadline_yields_once_and_comes_in_time(rt: HostRuntime) -> Result<(), Fail> {
    shows(
        &rt,
        rt.alloc(),
        b"guest 0 empty\ncall 0 subscribe-duration 0\ncall 0 ready 0\ncall 0 ready 0\ncall 0 subscribe-duration 5\ncall 0 ready 1\nclock mono 5\ncall 0 ready 1\nclock mono 18446744073709551615\ncall 0 subscribe-duration 1\ncall 0 ready 2\nclock wall 9223372036854775808 0\ncall 0 wall-now\ncall 0 system-now\n",
        b"ok\nhandle 0\nfalse\ntrue\nhandle 1\nfalse\nok\ntrue\nok\nhandle 2\nfalse\nok\ntime 9223372036854775808 0\ntrap number out of range\n",
    )?;
    shows(
        &rt,
        rt.alloc(),
        b"guest 0 empty\nclock mono 7\ncall 0 subscribe-instant 7\ncall 0 ready 0\ncall 0 ready 0\ncall 0 wait-until 8\ncall 0 ready 1\nclock mono 8\ncall 0 ready 1\n",
        b"ok\nok\nhandle 0\nfalse\ntrue\nhandle 1\nfalse\nok\ntrue\n",
    )
}

// Each kind of subscription for the time 10, made at 7: one nanosecond before it, at it, after it,
// and once the clock was set back.
#[test]
fn before_at_and_after_the_time(rt: HostRuntime) -> Result<(), Fail> {
    let alloc = rt.alloc();
    for (call, poll) in [
        ("subscribe-instant 10", "ready"),
        ("subscribe-duration 3", "block"),
        ("wait-until 10", "block"),
        ("wait-for 3", "ready"),
    ] {
        let made = format!(in alloc;
            "guest 0 empty\nclock mono 7\ncall 0 {call}\ncall 0 {poll} 0\n"
        )?;
        let polled = format!(in alloc;
            "clock mono 9\ncall 0 {poll} 0\nclock mono 10\ncall 0 {poll} 0\nclock mono 11\ncall 0 {poll} 0\nclock mono 9\ncall 0 {poll} 0\ncall 0 drop 0\ncall 0 {poll} 0\n"
        )?;
        let script = format!(in alloc; "{made}{polled}")?;
        shows(
            &rt,
            alloc,
            script.as_bytes(),
            b"ok\nok\nhandle 0\nfalse\nok\nfalse\nok\ntrue\nok\ntrue\nok\nfalse\nok\ntrap resource not present\n",
        )?;
    }
    Ok(())
}

// A time that had come when it was subscribed to: a deadline's first poll is not ready, and a wait's
// is, also once the clock was set back.
#[test]
fn past_times(rt: HostRuntime) -> Result<(), Fail> {
    let alloc = rt.alloc();
    for (call, first) in [
        ("subscribe-instant 6", "false"),
        ("subscribe-instant 7", "false"),
        ("subscribe-duration 0", "false"),
        ("wait-until 7", "true"),
        ("wait-for 0", "true"),
    ] {
        let script = format!(in alloc;
            "guest 0 empty\nclock mono 7\ncall 0 {call}\nclock mono 0\ncall 0 block 0\ncall 0 ready 0\n"
        )?;
        let transcript = format!(in alloc; "ok\nok\nhandle 0\nok\n{first}\ntrue\n")?;
        shows(&rt, alloc, script.as_bytes(), transcript.as_bytes())?;
    }
    Ok(())
}

#[test]
fn greatest_numbers(rt: HostRuntime) -> Result<(), Fail> {
    shows(
        &rt,
        rt.alloc(),
        b"guest 0 empty\nguest 1 empty\nguest 2 empty\nclock mono 1\ncall 0 subscribe-duration 18446744073709551615\ncall 0 wait-for 18446744073709551615\ncall 0 subscribe-instant 18446744073709551615\ncall 0 wait-until 18446744073709551615\nclock mono 18446744073709551615\ncall 0 ready 0\ncall 0 ready 1\ncall 0 ready 2\ncall 0 ready 3\nclock wall 9223372036854775807 999999999\ncall 0 system-now\nclock wall 18446744073709551615 999999999\ncall 0 wall-now\ncall 1 system-now\nclock wall-res 18446744073 709551615\ncall 0 system-resolution\nclock wall-res 18446744073 709551616\ncall 0 wall-resolution\ncall 2 system-resolution\nclock mono-res 18446744073709551615\ncall 0 mono-resolution\ncall 0 mono-now\n",
        b"ok\nok\nok\nok\nhandle 0\nhandle 1\nhandle 2\nhandle 3\nok\nfalse\nfalse\ntrue\ntrue\nok\ntime 9223372036854775807 999999999\nok\ntime 18446744073709551615 999999999\ntrap number out of range\nok\ncount 18446744073709551615\nok\ntime 18446744073 709551616\ntrap number out of range\nok\ncount 18446744073709551615\ncount 18446744073709551615\n",
    )
}

#[test]
fn all_guests_see_the_clocks(rt: HostRuntime) -> Result<(), Fail> {
    shows(
        &rt,
        rt.alloc(),
        b"guest 0 empty\ncall 0 wall-now\ncall 0 wall-resolution\ncall 0 mono-now\ncall 0 mono-resolution\ncall 0 system-resolution\nclock wall 1 2\nclock mono 3\nclock wall-res 0 4\nclock mono-res 5\nguest 1 empty\ncall 1 wall-now\ncall 1 mono-now\ncall 1 wall-resolution\ncall 1 mono-resolution\ncall 0 system-now\ncall 0 mono-now\ncall 0 system-resolution\n",
        b"ok\ntime 0 0\ntime 0 1\ncount 0\ncount 1\ncount 1\nok\nok\nok\nok\nok\ntime 1 2\ncount 3\ntime 0 4\ncount 5\ntime 1 2\ncount 3\ncount 4\n",
    )
}

#[test]
fn calls_that_waits_do_not_take(rt: HostRuntime) -> Result<(), Fail> {
    shows(
        &rt,
        rt.alloc(),
        b"guest 0 empty\nguest 1 empty\ncapacity 0 1\ncall 0 wait-for 0\ncall 0 subscribe-duration 0\ncall 0 ready 0\ncall 1 subscribe-duration 1\ncall 1 subscribe 0\ncall 1 ready 0\n",
        b"ok\nok\nok\nhandle 0\ntrap resource table is full\nended\nhandle 0\ntrap resource has another type\nended\n",
    )
}
