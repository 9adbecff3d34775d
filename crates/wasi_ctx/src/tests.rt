mod directories;
mod named;
mod settings;

use crate::{SockAddr, SocketAddrUse, WasiCtx, WasiCtxBuilder, WasiSocketsCtx};
use std::alloc::{AllocError, Global};
use std::process::Abort;
use std::test::Fail;
use wasi_cli::{InKind, OutKind, Stderr, Stdout};
use wasi_clocks::{HostMonotonicClock, HostWallClock, WallTime};
use wasi_random::{WasiRandomCtx, thread_rng};

// What a context has, but for its texts.
#[derive(Drop)]
struct Plain {
    stdin: InKind,
    stdout: OutKind,
    stderr: OutKind,
    wall: WallTime,
    wall_resolution: WallTime,
    mono: u64,
    mono_resolution: u64,
    blocking: bool,
    secure: u64,
    insecure: u64,
    seed: (u64, u64),
    max_size: u64,
    tcp: bool,
    udp: bool,
    ip_name_lookup: bool,
    allowed: (bool, bool),
}

const HTTP: SockAddr = SockAddr::V4([127, 0, 0, 1], 80);

const DNS: SockAddr = SockAddr::V6([0, 0, 0, 0, 0, 0, 0, 1], 53);

/// The default numbers. Those of the generators are the first 64 bits of ChaCha20 at a key of 32
/// zero bytes, from a block function written after RFC 8439.
fn defaults() -> Plain {
    Plain {
        stdin: InKind::Empty,
        stdout: OutKind::Empty,
        stderr: OutKind::Empty,
        wall: WallTime::zero(),
        wall_resolution: WallTime::one_nanosecond(),
        mono: 0,
        mono_resolution: 1,
        blocking: false,
        secure: 10_393_729_187_455_219_830,
        insecure: 10_393_729_187_455_219_830,
        seed: (0, 0),
        max_size: 67_108_864,
        tcp: true,
        udp: true,
        ip_name_lookup: false,
        allowed: (false, false),
    }
}

fn allowed(sockets: &WasiSocketsCtx) -> (bool, bool) {
    (
        sockets.allows(HTTP, SocketAddrUse::TcpConnect),
        sockets.allows(DNS, SocketAddrUse::UdpBind),
    )
}

/// Whether the context has these numbers; its generators are drawn from once.
fn has_numbers(rt: &impl Abort, ctx: WasiCtx, want: &Plain) {
    let WasiCtx {
        cli,
        clocks,
        filesystem,
        random,
        sockets,
    } = ctx;
    assert_eq!(rt; cli.stdin, want.stdin);
    assert_eq!(rt; cli.stdout, want.stdout);
    assert_eq!(rt; cli.stderr, want.stderr);
    assert_eq!(rt; clocks.wall_now(), want.wall);
    assert_eq!(rt; clocks.wall_resolution(), want.wall_resolution);
    assert_eq!(rt; clocks.mono_now(), want.mono);
    assert_eq!(rt; clocks.mono_resolution(), want.mono_resolution);
    assert_eq!(rt; filesystem.len(), 0);
    assert_eq!(rt; filesystem.blocking(), want.blocking);
    draws(rt, random, want);
    assert_eq!(rt; sockets.tcp, want.tcp);
    assert_eq!(rt; sockets.udp, want.udp);
    assert_eq!(rt; sockets.ip_name_lookup, want.ip_name_lookup);
    assert_eq!(rt; allowed(&sockets), want.allowed);
}

fn draws(rt: &impl Abort, sources: WasiRandomCtx, want: &Plain) {
    let mut sources = sources;
    assert_eq!(rt; sources.get_random_u64(), want.secure);
    assert_eq!(rt; sources.get_insecure_random_u64(), want.insecure);
    assert_eq!(rt; sources.insecure_seed(), want.seed);
    assert_eq!(rt; sources.max_size, want.max_size);
}

/// Whether the context has these texts: pairs one after the other, arguments, first directory.
fn has_texts(
    rt: &impl Abort,
    ctx: &WasiCtx,
    pairs: &[&str],
    arguments: &[&str],
    cwd: Option<&str>,
) {
    let mut wanted = pairs.iter();
    for pair in ctx.cli.environment.as_slice() {
        assert_eq!(rt; wanted.next(), Some(&pair.0.as_str()));
        assert_eq!(rt; wanted.next(), Some(&pair.1.as_str()));
    }
    assert_eq!(rt; wanted.next(), None);
    let mut wanted = arguments.iter();
    for argument in ctx.cli.arguments.as_slice() {
        assert_eq!(rt; wanted.next(), Some(&argument.as_str()));
    }
    assert_eq!(rt; wanted.next(), None);
    match &ctx.cli.initial_cwd {
        Some(text) => assert_eq!(rt; Some(text.as_str()), cwd),
        None => assert_eq!(rt; None, cwd),
    }
}

/// Whether the builder's context has these numbers and no texts.
fn builds(rt: &impl Abort, builder: WasiCtxBuilder, want: &Plain) {
    let ctx = builder.build();
    has_texts(rt, &ctx, &[], &[], None);
    has_numbers(rt, ctx, want);
}
