//! Each call is a step, with its numbers and bytes.

ghost use Rattle.std.specs.Prelude.{◌≡◌, length, IfOk};

use super::{bad_line, check_bytes, parsed};
use crate::{
    Access, Call, ClockCall, ClockSetting, Context, EntryCall, ExitStatus, Line, OwnCall,
    RandomCall, RandomSource, Script, Setting, Standard, WorkerTurn,
};
use std::alloc::Global;
use std::process::Abort;
use std::test::Fail;
use wasi_clocks::WallTime;

#[test]
fn each_call_is_a_step(rt: HostRuntime) -> Result<(), Fail> {
    let text = "# every form\n\nguest 007 shared\ncall 7 get-stdin\ncall 7 async-stdin\n\
                call 7 read 0 18446744073709551615\ncall 7 skip 00 4\n#\ncall 7 poll-read 4 0\n\
                capture\ndeliver\ncall 7 subscribe 007\ncall 7 ready 18446744073709551615\n\
                call 7 block 0\ncall 7 drop 4294967296\ncapacity 7 1";
    assert_eq!(rt; bad_line(&rt, rt.alloc(), text)?, Some(16));
    let text = "guest 7 shared\ncapacity 7 1\ncapacity 7 00000000000000065536\ncall 7 exit ok\n\
                call 7 exit err\ncall 7 exit-code 255";
    let script = parsed(&rt, rt.alloc(), text)?;
    assert_eq!(rt; script.len(), 6);
    let steps = script.steps();
    assert!(rt;
        matches!(
            steps[1],
            Line::Capacity {
                guest: 7,
                capacity: 1
            }
        )
    );
    assert!(rt;
        matches!(
            steps[2],
            Line::Capacity {
                guest: 7,
                capacity: 65536
            }
        )
    );
    assert!(rt;
        matches!(
            steps[3],
            Line::Call {
                context: Context {
                    guest: 7,
                    named: None
                },
                call: Call::Own(OwnCall::Exit {
                    status: ExitStatus::Ok
                })
            }
        )
    );
    assert!(rt;
        matches!(
            steps[4],
            Line::Call {
                context: Context {
                    guest: 7,
                    named: None
                },
                call: Call::Own(OwnCall::Exit {
                    status: ExitStatus::Err
                })
            }
        )
    );
    assert!(rt;
        matches!(
            steps[5],
            Line::Call {
                context: Context {
                    guest: 7,
                    named: None
                },
                call: Call::Own(OwnCall::ExitCode { code: 255 })
            }
        )
    );
    Ok(())
}

// The steps of a guest's calls.
fn calls(rt: &impl Abort, alloc: Global, text: &str, count: u64) -> Result<Script, Fail> {
    let text = format!(in alloc; "guest 7 shared\n{text}")?;
    let script = parsed(rt, alloc, &text)?;
    assert_eq!(rt; script.len(), count);
    Ok(script)
}

#[test]
fn calls_on_inputs_are_steps(rt: HostRuntime) -> Result<(), Fail> {
    let text = "call 7 get-stdin\ncall 7 async-stdin\ncall 7 read 0 18446744073709551615\n\
                call 7 skip 00 4\n#\ncall 7 poll-read 4 0\ncapture\ndeliver";
    let script = calls(&rt, rt.alloc(), text, 8)?;
    let steps = script.steps();
    assert_eq!(rt; steps.len(), 8);
    assert!(rt;
        matches!(
            steps[1],
            Line::Call {
                context: Context {
                    guest: 7,
                    named: None
                },
                call: Call::Open {
                    stream: Standard::Input,
                    access: Access::Plain
                }
            }
        )
    );
    assert!(rt;
        matches!(
            steps[2],
            Line::Call {
                context: Context {
                    guest: 7,
                    named: None
                },
                call: Call::Open {
                    stream: Standard::Input,
                    access: Access::Polled
                }
            }
        )
    );
    assert!(rt;
        matches!(
            steps[3],
            Line::Call {
                context: Context {
                    guest: 7,
                    named: None
                },
                call: Call::On {
                    number: 0,
                    call: EntryCall::Read {
                        size: 18446744073709551615
                    }
                }
            }
        )
    );
    assert!(rt;
        matches!(
            steps[4],
            Line::Call {
                context: Context {
                    guest: 7,
                    named: None
                },
                call: Call::On {
                    number: 0,
                    call: EntryCall::Skip { size: 4 }
                }
            }
        )
    );
    assert!(rt;
        matches!(
            steps[5],
            Line::Call {
                context: Context {
                    guest: 7,
                    named: None
                },
                call: Call::On {
                    number: 4,
                    call: EntryCall::PollRead { room: 0 }
                }
            }
        )
    );
    assert!(rt; matches!(steps[6], Line::Worker(WorkerTurn::Capture)));
    assert!(rt; matches!(steps[7], Line::Worker(WorkerTurn::Deliver)));
    Ok(())
}

#[test]
fn calls_on_entries_are_steps(rt: HostRuntime) -> Result<(), Fail> {
    let text = "call 7 subscribe 007\ncall 7 ready 18446744073709551615\ncall 7 block 0\n\
                call 7 drop 4294967296";
    let script = calls(&rt, rt.alloc(), text, 5)?;
    let steps = script.steps();
    assert_eq!(rt; steps.len(), 5);
    assert!(rt;
        matches!(
            steps[1],
            Line::Call {
                context: Context {
                    guest: 7,
                    named: None
                },
                call: Call::On {
                    number: 7,
                    call: EntryCall::Subscribe
                }
            }
        )
    );
    assert!(rt;
        matches!(
            steps[2],
            Line::Call {
                context: Context {
                    guest: 7,
                    named: None
                },
                call: Call::On {
                    number: 18446744073709551615,
                    call: EntryCall::Ready
                }
            }
        )
    );
    assert!(rt;
        matches!(
            steps[3],
            Line::Call {
                context: Context {
                    guest: 7,
                    named: None
                },
                call: Call::On {
                    number: 0,
                    call: EntryCall::Block
                }
            }
        )
    );
    assert!(rt;
        matches!(
            steps[4],
            Line::Call {
                context: Context {
                    guest: 7,
                    named: None
                },
                call: Call::Drop { number: 4294967296 }
            }
        )
    );
    Ok(())
}

#[test]
fn outputs_are_asked_for(rt: HostRuntime) -> Result<(), Fail> {
    let text = "call 7 get-stdout\ncall 7 get-stderr\ncall 7 async-stdout\ncall 7 async-stderr";
    let script = calls(&rt, rt.alloc(), text, 5)?;
    let steps = script.steps();
    assert_eq!(rt; steps.len(), 5);
    assert!(rt;
        matches!(
            steps[1],
            Line::Call {
                context: Context {
                    guest: 7,
                    named: None
                },
                call: Call::Open {
                    stream: Standard::Output,
                    access: Access::Plain
                }
            }
        )
    );
    assert!(rt;
        matches!(
            steps[2],
            Line::Call {
                context: Context {
                    guest: 7,
                    named: None
                },
                call: Call::Open {
                    stream: Standard::Error,
                    access: Access::Plain
                }
            }
        )
    );
    assert!(rt;
        matches!(
            steps[3],
            Line::Call {
                context: Context {
                    guest: 7,
                    named: None
                },
                call: Call::Open {
                    stream: Standard::Output,
                    access: Access::Polled
                }
            }
        )
    );
    assert!(rt;
        matches!(
            steps[4],
            Line::Call {
                context: Context {
                    guest: 7,
                    named: None
                },
                call: Call::Open {
                    stream: Standard::Error,
                    access: Access::Polled
                }
            }
        )
    );
    Ok(())
}

#[test]
fn calls_on_outputs_are_steps(rt: HostRuntime) -> Result<(), Fail> {
    let text = "call 7 check-write 18446744073709551615\ncall 7 flush 008\ncall 7 poll-flush 9";
    let script = calls(&rt, rt.alloc(), text, 4)?;
    let steps = script.steps();
    assert_eq!(rt; steps.len(), 4);
    assert!(rt;
        matches!(
            steps[1],
            Line::Call {
                context: Context {
                    guest: 7,
                    named: None
                },
                call: Call::On {
                    number: 18446744073709551615,
                    call: EntryCall::CheckWrite
                }
            }
        )
    );
    assert!(rt;
        matches!(
            steps[2],
            Line::Call {
                context: Context {
                    guest: 7,
                    named: None
                },
                call: Call::On {
                    number: 8,
                    call: EntryCall::Flush
                }
            }
        )
    );
    assert!(rt;
        matches!(
            steps[3],
            Line::Call {
                context: Context {
                    guest: 7,
                    named: None
                },
                call: Call::On {
                    number: 9,
                    call: EntryCall::PollFlush
                }
            }
        )
    );
    Ok(())
}

// A script of a guest and its one call.
fn only_call(rt: &impl Abort, alloc: Global, call: &str) -> Result<Script, Fail>
    ensures { IfOk result (λ script. length script ≡ 2) }
{
    let text = format!(in alloc; "guest 7 empty\ncall 7 {call}")?;
    let script = parsed(rt, alloc, &text)?;
    assert_eq!(rt; script.len(), 2, "{call}");
    Ok(script)
}

fn check_write(
    rt: &impl Abort,
    alloc: Global,
    call: &str,
    number: u64,
    list: &[u8],
) -> Result<(), Fail> {
    let script = only_call(rt, alloc, call)?;
    match script.line(1) {
        Line::Call {
            context: Context {
                guest: 7,
                named: None,
            },
            call: Call::On {
                number: given,
                call: EntryCall::Write { bytes },
            },
        } => {
            assert_eq!(rt; *given, number);
            check_bytes(rt, alloc, bytes, list)
        }
        _ => panic!(rt; "{call}"),
    }
}

#[test]
fn a_write_has_its_bytes(rt: HostRuntime) -> Result<(), Fail> {
    check_write(&rt, rt.alloc(), "write 0 -", 0, &[])?;
    check_write(&rt, rt.alloc(), "write 03 00fFaB7f", 3, &[0, 255, 171, 127])?;
    check_write(
        &rt,
        rt.alloc(),
        "write 18446744073709551615 003*0A",
        18446744073709551615,
        &[10, 10, 10],
    )
}

fn check_poll_write(
    rt: &impl Abort,
    alloc: Global,
    call: &str,
    number: u64,
    list: &[u8],
) -> Result<(), Fail> {
    let script = only_call(rt, alloc, call)?;
    match script.line(1) {
        Line::Call {
            context: Context {
                guest: 7,
                named: None,
            },
            call: Call::On {
                number: given,
                call: EntryCall::PollWrite { bytes },
            },
        } => {
            assert_eq!(rt; *given, number);
            check_bytes(rt, alloc, bytes, list)
        }
        _ => panic!(rt; "{call}"),
    }
}

#[test]
fn a_polled_write_has_its_bytes(rt: HostRuntime) -> Result<(), Fail> {
    check_poll_write(&rt, rt.alloc(), "poll-write 4 -", 4, &[])?;
    check_poll_write(&rt, rt.alloc(), "poll-write 0 616263", 0, b"abc")?;
    check_poll_write(&rt, rt.alloc(), "poll-write 1 2*fe", 1, &[254, 254])
}

// The bytes of a call have no limit of their own, and those of a declared stream have one.
#[test]
fn a_write_is_longer_than_a_stream(rt: HostRuntime) -> Result<(), Fail> {
    let mut digits = String::new(rt.alloc());
    for _ in 0..1048577u32 {
        digits.push_str("5a")?;
    }
    let call = format!(in rt.alloc(); "write 0 {digits}")?;
    let script = only_call(&rt, rt.alloc(), &call)?;
    match script.line(1) {
        Line::Call {
            context: Context {
                guest: 7,
                named: None,
            },
            call: Call::On {
                number: 0,
                call: EntryCall::Write { bytes },
            },
        } => assert_eq!(rt; bytes.len(), 1048577),
        _ => panic!(rt; "no write"),
    }
    let pipe = format!(in rt.alloc(); "pipe P {digits}")?;
    assert_eq!(rt; bad_line(&rt, rt.alloc(), &pipe)?, Some(1));
    Ok(())
}

#[test]
fn calls_on_the_clocks(rt: HostRuntime) -> Result<(), Fail> {
    let calls = [
        ("wall-now", ClockCall::WallNow),
        ("wall-resolution", ClockCall::WallResolution),
        ("system-now", ClockCall::SystemNow),
        ("system-resolution", ClockCall::SystemResolution),
        ("mono-now", ClockCall::MonotonicNow),
        ("mono-resolution", ClockCall::MonotonicResolution),
        (
            "subscribe-instant 18446744073709551615",
            ClockCall::SubscribeInstant { when: u64::MAX },
        ),
        (
            "subscribe-duration 00",
            ClockCall::SubscribeDuration { duration: 0 },
        ),
        ("wait-until 7", ClockCall::WaitUntil { when: 7 }),
        ("wait-for 8", ClockCall::WaitFor { duration: 8 }),
    ];
    for (text, want) in calls {
        let text = format!(in rt.alloc(); "guest 3 empty\ncall 3 {text}")?;
        let script = parsed(&rt, rt.alloc(), text.as_str())?;
        match script.steps() {
            [
                _,
                Line::Call {
                    context: Context {
                        guest: 3,
                        named: None,
                    },
                    call: Call::Own(OwnCall::Clock(found)),
                },
            ] => assert_eq!(rt; *found, want),
            _ => panic!(rt; "{text}"),
        }
    }
    Ok(())
}

#[test]
fn lines_that_set_a_clock(rt: HostRuntime) -> Result<(), Fail> {
    let time = WallTime {
        seconds: u64::MAX,
        nanoseconds: 999_999_999,
    };
    let lines = [
        ("clock mono 7", ClockSetting::Monotonic(7)),
        ("clock mono-res 8", ClockSetting::MonotonicResolution(8)),
        (
            "clock wall 18446744073709551615 999999999",
            ClockSetting::Wall(time),
        ),
        (
            "clock wall-res 18446744073709551615 0999999999",
            ClockSetting::WallResolution(time),
        ),
    ];
    for (text, want) in lines {
        let script = parsed(&rt, rt.alloc(), text)?;
        match script.steps() {
            [Line::Clock(found)] => assert_eq!(rt; *found, want),
            _ => panic!(rt; "{text}"),
        }
    }
    for text in [
        "clock",
        "clock mono",
        "clock mono 1 2",
        "clock wall 1",
        "clock wall 0 1000000000",
        "clock moon 1",
    ] {
        assert_eq!(rt; bad_line(&rt, rt.alloc(), text)?, Some(1), "{text}");
    }
    Ok(())
}

#[test]
fn calls_on_the_random_sources(rt: HostRuntime) -> Result<(), Fail> {
    let (secure, insecure) = (RandomSource::Secure, RandomSource::Insecure);
    let calls = [
        (
            "random-bytes 18446744073709551615",
            RandomCall::Bytes {
                source: secure,
                count: u64::MAX,
            },
        ),
        (
            "insecure-bytes 00",
            RandomCall::Bytes {
                source: insecure,
                count: 0,
            },
        ),
        (
            "p3-random-bytes 7",
            RandomCall::BytesUpTo {
                source: secure,
                count: 7,
            },
        ),
        (
            "p3-insecure-bytes 8",
            RandomCall::BytesUpTo {
                source: insecure,
                count: 8,
            },
        ),
        ("random-u64", RandomCall::Number { source: secure }),
        ("insecure-u64", RandomCall::Number { source: insecure }),
        ("insecure-seed", RandomCall::InsecureSeed),
    ];
    for (text, want) in calls {
        let text = format!(in rt.alloc(); "guest 3 empty\ncall 3 {text}")?;
        let script = parsed(&rt, rt.alloc(), text.as_str())?;
        match script.steps() {
            [
                _,
                Line::Call {
                    context: Context {
                        guest: 3,
                        named: None,
                    },
                    call: Call::Random(found),
                },
            ] => assert_eq!(rt; *found, want),
            _ => panic!(rt; "{text}"),
        }
    }
    for text in [
        "random-bytes",
        "random-bytes 18446744073709551616",
        "random-u64 1",
        "insecure-seed 0",
        "p3-random-u64",
    ] {
        let text = format!(in rt.alloc(); "guest 3 empty\ncall 3 {text}")?;
        assert_eq!(rt; bad_line(&rt, rt.alloc(), text.as_str())?, Some(2));
    }
    Ok(())
}

#[test]
fn lines_that_set_random_sources(rt: HostRuntime) -> Result<(), Fail> {
    let text = "guest 3 empty\nrandom 3 secure 01fF\nrandom 3 insecure 2*7a\n\
                seeded 3 secure 18446744073709551615\nseeded 3 insecure 007\n\
                seed 3 340282366920938463463374607431768211455\n\
                maxrandom 3 18446744073709551615\nmaxrandom 3 0";
    let script = parsed(&rt, rt.alloc(), text)?;
    let [_, first, second, third, fourth, fifth, sixth, seventh] = script.steps() else {
        panic!(rt; "eight steps");
    };
    check_random(&rt, rt.alloc(), first, RandomSource::Secure, b"\x01\xff")?;
    check_random(&rt, rt.alloc(), second, RandomSource::Insecure, b"zz")?;
    check_seeded(&rt, third, RandomSource::Secure, u64::MAX)?;
    check_seeded(&rt, fourth, RandomSource::Insecure, 7)?;
    match fifth {
        Line::Configure {
            context: Context {
                guest: 3,
                named: None,
            },
            setting: Setting::InsecureSeed(seed),
        } => assert_eq!(rt; *seed, u128::MAX),
        _ => panic!(rt; "no seed"),
    }
    check_limit(&rt, sixth, u64::MAX)?;
    check_limit(&rt, seventh, 0)
}

fn check_random(
    rt: &impl Abort,
    alloc: Global,
    line: &Line,
    want: RandomSource,
    bytes: &[u8],
) -> Result<(), Fail> {
    match line {
        Line::Configure {
            context: Context {
                guest: 3,
                named: None,
            },
            setting: Setting::Random {
                source,
                bytes: found,
            },
        } => {
            assert_eq!(rt; *source, want);
            assert_eq!(rt; found.to_vec(alloc)?.as_slice(), bytes);
        }
        _ => panic!(rt; "no bytes"),
    }
    Ok(())
}

fn check_seeded(rt: &impl Abort, line: &Line, want: RandomSource, number: u64) -> Result<(), Fail> {
    match line {
        Line::Configure {
            context: Context {
                guest: 3,
                named: None,
            },
            setting: Setting::Seeded { source, seed },
        } => {
            assert_eq!(rt; *source, want);
            assert_eq!(rt; *seed, number);
        }
        _ => panic!(rt; "no seed of a source"),
    }
    Ok(())
}

fn check_limit(rt: &impl Abort, line: &Line, want: u64) -> Result<(), Fail> {
    match line {
        Line::Configure {
            context: Context {
                guest: 3,
                named: None,
            },
            setting: Setting::MaxRandom(size),
        } => assert_eq!(rt; *size, want),
        _ => panic!(rt; "no limit"),
    }
    Ok(())
}

#[test]
fn lines_that_set_no_random_source(rt: HostRuntime) -> Result<(), Fail> {
    for text in [
        "random 3 secure -",
        "random 3 secure 0",
        "random 3 secure",
        "random 3 safe 00",
        "random 4 secure 00",
        "random 3 secure 00 00",
        "seeded 3 insecure 18446744073709551616",
        "seeded 3 insecure -1",
        "seeded 3 7",
        "seed 3 340282366920938463463374607431768211456",
        "seed 3 0000000000000000000000000000000000000000",
        "seed 3",
        "seed 3 1 2",
        "maxrandom 3 18446744073709551616",
        "maxrandom 3 -",
        "maxrandom 64 1",
        "call 3 random-u64\nmaxrandom 3 1",
        "call 3 random-u64\nseeded 3 secure 1",
    ] {
        let before = format!(in rt.alloc(); "guest 3 empty\n{text}")?;
        let lines = text
            .as_bytes()
            .iter()
            .filter(|byte| **byte == b'\n')
            .count() as u64;
        let line = u64::saturating_add(lines, 2);
        assert_eq!(rt;
            bad_line(&rt, rt.alloc(), before.as_str())?,
            Some(line),
            "{text}"
        );
    }
    Ok(())
}
