use super::*;

#[test]
fn nothing_is_set(rt: HostRuntime) {
    builds(&rt, WasiCtxBuilder::new(rt.alloc()), &defaults());
    builds(&rt, WasiCtx::builder(rt.alloc()), &defaults());
    let ctx = WasiCtx::default(rt.alloc());
    has_texts(&rt, &ctx, &[], &[], None);
    has_numbers(&rt, ctx, &defaults());
    let p1 = WasiCtxBuilder::new(rt.alloc()).build_p1();
    has_numbers(&rt, p1.wasi, &defaults());
}

#[test]
fn standard_streams(rt: HostRuntime) {
    let mut builder = WasiCtxBuilder::new(rt.alloc());
    let mut want = defaults();
    builder.stdin(InKind::Pipe(1));
    want.stdin = InKind::Pipe(1);
    builds(&rt, builder, &want);
    let mut builder = WasiCtxBuilder::new(rt.alloc());
    let mut want = defaults();
    builder.stdout(OutKind::Sink);
    want.stdout = OutKind::Sink;
    builds(&rt, builder, &want);
    let mut builder = WasiCtxBuilder::new(rt.alloc());
    let mut want = defaults();
    builder.stderr(OutKind::Buffered(2));
    want.stderr = OutKind::Buffered(2);
    builds(&rt, builder, &want);
}

#[test]
fn streams_of_the_process(rt: HostRuntime) {
    let mut builder = WasiCtxBuilder::new(rt.alloc());
    let mut want = defaults();
    builder.inherit_stdin(true);
    want.stdin = InKind::Shared { terminal: true };
    builds(&rt, builder, &want);
    let mut builder = WasiCtxBuilder::new(rt.alloc());
    let mut want = defaults();
    builder.inherit_stdout(Stdout {
        number: 1,
        terminal: true,
    });
    want.stdout = OutKind::Stdio {
        number: 1,
        terminal: true,
    };
    builds(&rt, builder, &want);
    let mut builder = WasiCtxBuilder::new(rt.alloc());
    let mut want = defaults();
    builder.inherit_stderr(Stderr {
        number: 2,
        terminal: false,
    });
    want.stderr = OutKind::Stdio {
        number: 2,
        terminal: false,
    };
    builds(&rt, builder, &want);
}

#[test]
fn all_streams_of_the_process(rt: HostRuntime) {
    let mut builder = WasiCtxBuilder::new(rt.alloc());
    let mut want = defaults();
    builder.inherit_stdio(
        true,
        Stdout {
            number: 1,
            terminal: true,
        },
        Stderr {
            number: 2,
            terminal: false,
        },
    );
    want.stdin = InKind::Shared { terminal: true };
    want.stdout = OutKind::Stdio {
        number: 1,
        terminal: true,
    };
    want.stderr = OutKind::Stdio {
        number: 2,
        terminal: false,
    };
    builds(&rt, builder, &want);
}

#[test]
fn random_sources(rt: HostRuntime) {
    let mut builder = WasiCtxBuilder::new(rt.alloc());
    let mut want = defaults();
    builder.secure_random(thread_rng(5));
    want.secure = 4_863_076_871_177_335_197;
    builds(&rt, builder, &want);
    let mut builder = WasiCtxBuilder::new(rt.alloc());
    let mut want = defaults();
    builder.insecure_random(thread_rng(6));
    want.insecure = 14_297_313_560_152_411_146;
    builds(&rt, builder, &want);
    let mut builder = WasiCtxBuilder::new(rt.alloc());
    let mut want = defaults();
    builder.insecure_random_seed(18_446_744_073_709_551_618);
    want.seed = (2, 1);
    builds(&rt, builder, &want);
    let mut builder = WasiCtxBuilder::new(rt.alloc());
    let mut want = defaults();
    builder.max_random_size(0);
    want.max_size = 0;
    builds(&rt, builder, &want);
}

#[test]
fn files_and_sockets(rt: HostRuntime) {
    let mut builder = WasiCtxBuilder::new(rt.alloc());
    let mut want = defaults();
    builder.allow_blocking_current_thread(true);
    want.blocking = true;
    builds(&rt, builder, &want);
    let mut builder = WasiCtxBuilder::new(rt.alloc());
    let mut want = defaults();
    builder.allow_tcp(false);
    want.tcp = false;
    builds(&rt, builder, &want);
    let mut builder = WasiCtxBuilder::new(rt.alloc());
    let mut want = defaults();
    builder.allow_udp(false);
    want.udp = false;
    builds(&rt, builder, &want);
    let mut builder = WasiCtxBuilder::new(rt.alloc());
    let mut want = defaults();
    builder.allow_ip_name_lookup(true);
    want.ip_name_lookup = true;
    builds(&rt, builder, &want);
    let mut builder = WasiCtxBuilder::new(rt.alloc());
    let mut want = defaults();
    builder.inherit_network();
    want.allowed = (true, true);
    builds(&rt, builder, &want);
}

#[test]
fn the_callers_test_of_addresses(rt: HostRuntime) -> Result<(), Fail> {
    let mut builder = WasiCtxBuilder::new(rt.alloc());
    builder.socket_addr_check(Box::new(
        rt.alloc(),
        |addr: SockAddr, usage: SocketAddrUse| -> bool {
            addr == HTTP && usage == SocketAddrUse::TcpConnect
        },
    )?);
    let mut want = defaults();
    want.allowed = (true, false);
    builds(&rt, builder, &want);
    Ok(())
}

#[derive(Drop)]
struct FixedWallClock {
    time: WallTime,
}

impl HostWallClock for FixedWallClock {
    ghost use Rattle.std.specs.Prelude.{None};

    ghost wall_now_told = { λ _. None };

    ghost wall_resolution_told = { λ _. None };

    fn resolution(&self) -> WallTime {
        WallTime::one_nanosecond()
    }

    fn now(&self) -> WallTime {
        self.time
    }
}

#[derive(Drop)]
struct FixedMonotonicClock {
    ticks: u64,
}

impl HostMonotonicClock for FixedMonotonicClock {
    ghost use Rattle.std.specs.Prelude.{None};

    ghost mono_now_told = { λ _. None };

    ghost mono_resolution_told = { λ _. None };

    fn resolution(&self) -> u64 {
        3
    }

    fn now(&self) -> u64 {
        self.ticks
    }
}

#[test]
fn the_callers_clocks(rt: HostRuntime) -> Result<(), Fail> {
    let time = WallTime {
        seconds: 3,
        nanoseconds: 4,
    };
    let mut want = defaults();
    let mut builder = WasiCtxBuilder::new(rt.alloc());
    builder.wall_clock(Box::new(rt.alloc(), FixedWallClock { time })?);
    want.wall = time;
    builds(&rt, builder, &want);
    let mut builder = WasiCtxBuilder::new(rt.alloc());
    let mut want = defaults();
    builder.monotonic_clock(Box::new(rt.alloc(), FixedMonotonicClock { ticks: 9 })?);
    want.mono = 9;
    want.mono_resolution = 3;
    builds(&rt, builder, &want);
    Ok(())
}

fn text(alloc: Global, text: &str) -> Result<String, AllocError> {
    String::from_str(alloc, text)
}

// One setting each: what is known of a builder does not grow from call to call.
fn env(alloc: Global, builder: &mut WasiCtxBuilder, name: &str, value: &str) -> Result<(), Fail> {
    builder.env(alloc, name, value)?;
    Ok(())
}

fn envs(alloc: Global, builder: &mut WasiCtxBuilder, inherited: bool) -> Result<(), Fail> {
    let mut pairs = Vec::new(alloc);
    pairs.push((text(alloc, "a")?, text(alloc, "1")?))?;
    pairs.push((text(alloc, "a")?, text(alloc, "2")?))?;
    if inherited {
        builder.inherit_env(alloc, pairs.as_slice())?;
    } else {
        builder.envs(alloc, pairs.as_slice())?;
    }
    Ok(())
}

fn arg(alloc: Global, builder: &mut WasiCtxBuilder, argument: &str) -> Result<(), Fail> {
    builder.arg(alloc, argument)?;
    Ok(())
}

fn args(alloc: Global, builder: &mut WasiCtxBuilder, inherited: bool) -> Result<(), Fail> {
    let mut words = Vec::new(alloc);
    words.push(text(alloc, "x")?)?;
    words.push(text(alloc, "")?)?;
    if inherited {
        builder.inherit_args(alloc, words.as_slice())?;
    } else {
        builder.args(alloc, words.as_slice())?;
    }
    Ok(())
}

fn cwd(alloc: Global, builder: &mut WasiCtxBuilder, path: &str) -> Result<(), Fail> {
    builder.initial_cwd(alloc, path)?;
    Ok(())
}

#[test]
fn texts_are_appended(rt: HostRuntime) -> Result<(), Fail> {
    let alloc = rt.alloc();
    let mut builder = WasiCtxBuilder::new(alloc);
    env(alloc, &mut builder, "a", "0")?;
    envs(alloc, &mut builder, false)?;
    envs(alloc, &mut builder, true)?;
    env(alloc, &mut builder, "", "ä=\0")?;
    arg(alloc, &mut builder, "first")?;
    args(alloc, &mut builder, false)?;
    args(alloc, &mut builder, true)?;
    cwd(alloc, &mut builder, "/")?;
    cwd(alloc, &mut builder, "/ö")?;
    let ctx = builder.build();
    let want = ["a", "0", "a", "1", "a", "2", "a", "1", "a", "2", "", "ä=\0"];
    has_texts(&rt, &ctx, &want, &["first", "x", "", "x", ""], Some("/ö"));
    has_numbers(&rt, ctx, &defaults());
    Ok(())
}

#[test]
fn a_long_text_is_kept(rt: HostRuntime) -> Result<(), Fail> {
    let alloc = rt.alloc();
    let mut long = String::new(alloc);
    for _i in 0..1_048_576u32 {
        long.push('x')?;
    }
    let mut builder = WasiCtxBuilder::new(alloc);
    env(alloc, &mut builder, long.as_str(), long.as_str())?;
    arg(alloc, &mut builder, long.as_str())?;
    cwd(alloc, &mut builder, long.as_str())?;
    let ctx = builder.build();
    let want = [long.as_str(), long.as_str()];
    has_texts(&rt, &ctx, &want, &[long.as_str()], Some(long.as_str()));
    Ok(())
}
