ghost use Rattle.std.specs.Prelude.{◌≡◌, ◌++◌, ◌∷◌, [], Some, IfOk, OnErr, false};
ghost use Rattle.wasi_cli.specs.Texts.{texts, text_pairs};
ghost use Rattle.wasi_clocks.specs.declared.context.HeldWallClock.TheVariants as wall;
ghost use Rattle.wasi_clocks.specs.declared.context.HeldMonotonicClock.TheVariants as mono;
ghost use Rattle.wasi_ctx.specs.Filesystem.{given_dir};
ghost use Rattle.wasi_ctx.specs.Sockets.{IsHeld};
ghost use Rattle.wasi_cli.specs.Environment.{no_command_line};

use crate::{
    AddrTest, CallerCheck, SocketAddrCheck, WasiCtx, WasiFilesystemCtx, WasiP1Ctx, WasiSocketsCtx,
};
use std::alloc::Global;
use wasi_base::OutOfMemory;
use wasi_cli::{CwdText, InKind, OutKind, Stderr, Stdout, WasiCliCtx};
use wasi_clocks::{
    HeldMonotonicClock, HeldWallClock, HostMonotonicClock, HostWallClock, WallTime, WasiClocksCtx,
};
use wasi_fs::Dir;
use wasi_fs_types::FsPerms;
use wasi_random::{DEFAULT_MAX_SIZE, Generator, WasiRandomCtx, seeded_rng};

/// Makes a context, setting by setting. A setting that stands again counts from then on; the
/// environment and the arguments grow.
#[derive(Drop)]
pub struct WasiCtxBuilder {
    ctx: WasiCtx,
}

impl WasiCtxBuilder {
    /// A builder that starts from the defaults: an empty command line and empty streams, clocks
    /// that stand at 0, generators of the seed 0, TCP and UDP allowed, and no address and no look-up
    /// of names. It takes no memory.
    pub fn new(alloc: Global) -> WasiCtxBuilder
        ensures cli { result.ctx.cli ≡ no_command_line }
        ensures clocks { ⟦<WasiClocksCtx as Default>⟧.is_default result.ctx.clocks }
        ensures filesystem { result.ctx.filesystem ≡ record { preopens = []; allow_blocking_current_thread = false } }
        ensures random { ⟦<WasiRandomCtx as Default>⟧.is_default result.ctx.random }
        ensures sockets { ⟦<WasiSocketsCtx as Default>⟧.is_default result.ctx.sockets }
    {
        WasiCtxBuilder {
            ctx: WasiCtx {
                cli: WasiCliCtx::default(alloc),
                clocks: still_clocks(),
                filesystem: WasiFilesystemCtx::new(alloc),
                random: seeded_sources(),
                sockets: WasiSocketsCtx::default(),
            },
        }
    }

    /// The guest's standard input.
    pub fn stdin(&mut self, stdin: InKind) -> &mut WasiCtxBuilder
        ensures same { result.ghost_name ≡ self.entry.ghost_name }
        ensures sets { result.now ≡ record self.entry.now { ctx = record self.entry.now.ctx { cli = record self.entry.now.ctx.cli { stdin = stdin } } } }
    {
        self.ctx.cli.stdin = stdin;
        self
    }

    /// The guest's standard output.
    pub fn stdout(&mut self, stdout: OutKind) -> &mut WasiCtxBuilder
        ensures same { result.ghost_name ≡ self.entry.ghost_name }
        ensures sets { result.now ≡ record self.entry.now { ctx = record self.entry.now.ctx { cli = record self.entry.now.ctx.cli { stdout = stdout } } } }
    {
        self.ctx.cli.stdout = stdout;
        self
    }

    /// The guest's standard error.
    pub fn stderr(&mut self, stderr: OutKind) -> &mut WasiCtxBuilder
        ensures same { result.ghost_name ≡ self.entry.ghost_name }
        ensures sets { result.now ≡ record self.entry.now { ctx = record self.entry.now.ctx { cli = record self.entry.now.ctx.cli { stderr = stderr } } } }
    {
        self.ctx.cli.stderr = stderr;
        self
    }

    /// The shared input as the guest's standard input, which is a terminal or not.
    pub fn inherit_stdin(&mut self, terminal: bool) -> &mut WasiCtxBuilder
        ensures same { result.ghost_name ≡ self.entry.ghost_name }
        ensures sets { result.now ≡ record self.entry.now { ctx = record self.entry.now.ctx { cli = record self.entry.now.ctx.cli { stdin = InKind.Shared terminal } } } }
    {
        self.ctx.cli.stdin = InKind::Shared { terminal };
        self
    }

    /// A standard output of the process as the guest's.
    pub fn inherit_stdout(&mut self, stdout: Stdout) -> &mut WasiCtxBuilder
        ensures same { result.ghost_name ≡ self.entry.ghost_name }
        ensures sets { result.now ≡ record self.entry.now { ctx = record self.entry.now.ctx { cli = record self.entry.now.ctx.cli { stdout = OutKind.Stdio stdout.number stdout.terminal } } } }
    {
        self.ctx.cli.stdout = stdio(stdout.number, stdout.terminal);
        self
    }

    /// A standard error of the process as the guest's.
    pub fn inherit_stderr(&mut self, stderr: Stderr) -> &mut WasiCtxBuilder
        ensures same { result.ghost_name ≡ self.entry.ghost_name }
        ensures sets { result.now ≡ record self.entry.now { ctx = record self.entry.now.ctx { cli = record self.entry.now.ctx.cli { stderr = OutKind.Stdio stderr.number stderr.terminal } } } }
    {
        self.ctx.cli.stderr = stdio(stderr.number, stderr.terminal);
        self
    }

    /// All three standard streams of the process as the guest's.
    pub fn inherit_stdio(
        &mut self,
        terminal: bool,
        stdout: Stdout,
        stderr: Stderr,
    ) -> &mut WasiCtxBuilder
        ensures same { result.ghost_name ≡ self.entry.ghost_name }
        ensures sets { result.now ≡ record self.entry.now { ctx = record self.entry.now.ctx { cli = record self.entry.now.ctx.cli { stdin = InKind.Shared terminal; stdout = OutKind.Stdio stdout.number stdout.terminal; stderr = OutKind.Stdio stderr.number stderr.terminal } } } }
    {
        self.ctx.cli.stdin = InKind::Shared { terminal };
        self.ctx.cli.stdout = stdio(stdout.number, stdout.terminal);
        self.ctx.cli.stderr = stdio(stderr.number, stderr.terminal);
        self
    }

    /// Whether a call on a file may block the thread that calls it. It is not allowed at first.
    pub fn allow_blocking_current_thread(&mut self, enable: bool) -> &mut WasiCtxBuilder
        ensures same { result.ghost_name ≡ self.entry.ghost_name }
        ensures sets { result.now ≡ record self.entry.now { ctx = record self.entry.now.ctx { filesystem = record self.entry.now.ctx.filesystem { allow_blocking_current_thread = enable } } } }
    {
        self.ctx.filesystem.allow_blocking_current_thread = enable;
        self
    }

    /// Appends a name with its value to the environment, also where the name stands already.
    pub fn env(
        &mut self,
        alloc: Global,
        name: &str,
        value: &str,
    ) -> Result<&mut WasiCtxBuilder, OutOfMemory>
        ensures same { IfOk result (λ builder. builder.ghost_name ≡ self.entry.ghost_name) }
        ensures sets { IfOk result (λ builder. builder.now ≡ record self.entry.now { ctx = record self.entry.now.ctx { cli = record self.entry.now.ctx.cli { environment = self.entry.now.ctx.cli.environment ++ (name.now, value.now) ∷ [] } } }) }
    {
        match self.ctx.cli.environment.push(alloc, name, value) {
            Ok(()) => Ok(self),
            Err(refused) => Err(refused),
        }
    }

    /// Appends all these names with their values to the environment, in order.
    pub fn envs(
        &mut self,
        alloc: Global,
        pairs: &[(String, String)],
    ) -> Result<&mut WasiCtxBuilder, OutOfMemory>
        ensures same { IfOk result (λ builder. builder.ghost_name ≡ self.entry.ghost_name) }
        ensures sets { IfOk result (λ builder. builder.now ≡ record self.entry.now { ctx = record self.entry.now.ctx { cli = record self.entry.now.ctx.cli { environment = self.entry.now.ctx.cli.environment ++ text_pairs pairs.now } } }) }
    {
        match self.ctx.cli.environment.extend(alloc, pairs) {
            Ok(()) => Ok(self),
            Err(refused) => Err(refused),
        }
    }

    /// Appends the environment of the process, which the caller hands in.
    pub fn inherit_env(
        &mut self,
        alloc: Global,
        pairs: &[(String, String)],
    ) -> Result<&mut WasiCtxBuilder, OutOfMemory>
        ensures same { IfOk result (λ builder. builder.ghost_name ≡ self.entry.ghost_name) }
        ensures sets { IfOk result (λ builder. builder.now ≡ record self.entry.now { ctx = record self.entry.now.ctx { cli = record self.entry.now.ctx.cli { environment = self.entry.now.ctx.cli.environment ++ text_pairs pairs.now } } }) }
    {
        match self.ctx.cli.environment.extend(alloc, pairs) {
            Ok(()) => Ok(self),
            Err(refused) => Err(refused),
        }
    }

    /// Appends an argument.
    pub fn arg(&mut self, alloc: Global, argument: &str) -> Result<&mut WasiCtxBuilder, OutOfMemory>
        ensures same { IfOk result (λ builder. builder.ghost_name ≡ self.entry.ghost_name) }
        ensures sets { IfOk result (λ builder. builder.now ≡ record self.entry.now { ctx = record self.entry.now.ctx { cli = record self.entry.now.ctx.cli { arguments = self.entry.now.ctx.cli.arguments ++ argument.now ∷ [] } } }) }
    {
        match self.ctx.cli.arguments.push(alloc, argument) {
            Ok(()) => Ok(self),
            Err(refused) => Err(refused),
        }
    }

    /// Appends all these arguments, in order.
    pub fn args(
        &mut self,
        alloc: Global,
        arguments: &[String],
    ) -> Result<&mut WasiCtxBuilder, OutOfMemory>
        ensures same { IfOk result (λ builder. builder.ghost_name ≡ self.entry.ghost_name) }
        ensures sets { IfOk result (λ builder. builder.now ≡ record self.entry.now { ctx = record self.entry.now.ctx { cli = record self.entry.now.ctx.cli { arguments = self.entry.now.ctx.cli.arguments ++ texts arguments.now } } }) }
    {
        match self.ctx.cli.arguments.extend(alloc, arguments) {
            Ok(()) => Ok(self),
            Err(refused) => Err(refused),
        }
    }

    /// Appends the arguments of the process, which the caller hands in.
    pub fn inherit_args(
        &mut self,
        alloc: Global,
        arguments: &[String],
    ) -> Result<&mut WasiCtxBuilder, OutOfMemory>
        ensures same { IfOk result (λ builder. builder.ghost_name ≡ self.entry.ghost_name) }
        ensures sets { IfOk result (λ builder. builder.now ≡ record self.entry.now { ctx = record self.entry.now.ctx { cli = record self.entry.now.ctx.cli { arguments = self.entry.now.ctx.cli.arguments ++ texts arguments.now } } }) }
    {
        match self.ctx.cli.arguments.extend(alloc, arguments) {
            Ok(()) => Ok(self),
            Err(refused) => Err(refused),
        }
    }

    /// The directory in which the guest begins.
    pub fn initial_cwd(
        &mut self,
        alloc: Global,
        path: &str,
    ) -> Result<&mut WasiCtxBuilder, OutOfMemory>
        ensures same { IfOk result (λ builder. builder.ghost_name ≡ self.entry.ghost_name) }
        ensures sets { IfOk result (λ builder. builder.now ≡ record self.entry.now { ctx = record self.entry.now.ctx { cli = record self.entry.now.ctx.cli { initial_cwd = Some path.now } } }) }
    {
        match CwdText::from_str(alloc, path) {
            Ok(cwd) => {
                self.ctx.cli.initial_cwd = Some(cwd);
                Ok(self)
            }
            Err(refused) => Err(refused),
        }
    }

    /// Gives the guest a directory under a path, after those that it is given already: with these
    /// perms, to be read, and written too where they let that be, and with streams that work at once
    /// where a call on a file may block the thread as things stand now.
    pub fn preopened_dir(
        &mut self,
        alloc: Global,
        dir: Dir,
        path: &str,
        perms: FsPerms,
    ) -> Result<&mut WasiCtxBuilder, OutOfMemory>
        ensures same { IfOk result (λ builder. builder.ghost_name ≡ self.entry.ghost_name) }
        ensures sets { IfOk result (λ builder. builder.now ≡ record self.entry.now { ctx = record self.entry.now.ctx { filesystem = record self.entry.now.ctx.filesystem { preopens = self.entry.now.ctx.filesystem.preopens ++ (given_dir dir perms self.entry.now.ctx.filesystem.allow_blocking_current_thread, path.now) ∷ [] } } }) }
    {
        match self.ctx.filesystem.give(alloc, dir, path, perms) {
            Ok(()) => Ok(self),
            Err(refused) => Err(refused),
        }
    }

    /// Where secure random numbers come from.
    pub fn secure_random(&mut self, generator: Generator) -> &mut WasiCtxBuilder
        ensures same { result.ghost_name ≡ self.entry.ghost_name }
        ensures sets { result.now ≡ record self.entry.now { ctx = record self.entry.now.ctx { random = record self.entry.now.ctx.random { random = generator } } } }
    {
        self.ctx.random.random = generator;
        self
    }

    /// Where insecure random numbers come from.
    pub fn insecure_random(&mut self, generator: Generator) -> &mut WasiCtxBuilder
        ensures same { result.ghost_name ≡ self.entry.ghost_name }
        ensures sets { result.now ≡ record self.entry.now { ctx = record self.entry.now.ctx { random = record self.entry.now.ctx.random { insecure_random = generator } } } }
    {
        self.ctx.random.insecure_random = generator;
        self
    }

    /// The seed that a guest is told for insecure uses.
    pub fn insecure_random_seed(&mut self, seed: u128) -> &mut WasiCtxBuilder
        ensures same { result.ghost_name ≡ self.entry.ghost_name }
        ensures sets { result.now ≡ record self.entry.now { ctx = record self.entry.now.ctx { random = record self.entry.now.ctx.random { insecure_random_seed = seed } } } }
    {
        self.ctx.random.insecure_random_seed = seed;
        self
    }

    /// The most random bytes that a guest may ask for at a time.
    pub fn max_random_size(&mut self, max_size: u64) -> &mut WasiCtxBuilder
        ensures same { result.ghost_name ≡ self.entry.ghost_name }
        ensures sets { result.now ≡ record self.entry.now { ctx = record self.entry.now.ctx { random = record self.entry.now.ctx.random { max_size = max_size } } } }
    {
        self.ctx.random.max_size = max_size;
        self
    }

    /// The caller's wall clock.
    pub fn wall_clock(&mut self, clock: Box<dyn HostWallClock>) -> &mut WasiCtxBuilder
        ensures same { result.ghost_name ≡ self.entry.ghost_name }
        ensures sets { result.now ≡ record self.entry.now { ctx = record self.entry.now.ctx { clocks = record self.entry.now.ctx.clocks { wall_clock = wall.Caller clock } } } }
    {
        self.ctx.clocks.wall_clock = HeldWallClock::Caller(clock);
        self
    }

    /// The caller's monotonic clock.
    pub fn monotonic_clock(&mut self, clock: Box<dyn HostMonotonicClock>) -> &mut WasiCtxBuilder
        ensures same { result.ghost_name ≡ self.entry.ghost_name }
        ensures sets { result.now ≡ record self.entry.now { ctx = record self.entry.now.ctx { clocks = record self.entry.now.ctx.clocks { monotonic_clock = mono.Caller clock } } } }
    {
        self.ctx.clocks.monotonic_clock = HeldMonotonicClock::Caller(clock);
        self
    }

    /// Allows each address.
    pub fn inherit_network(&mut self) -> &mut WasiCtxBuilder
        ensures same { result.ghost_name ≡ self.entry.ghost_name }
        ensures sets { result.now ≡ record self.entry.now { ctx = record self.entry.now.ctx { sockets = record self.entry.now.ctx.sockets { check = SocketAddrCheck.Allow } } } }
    {
        self.ctx.sockets.check = SocketAddrCheck::Allow;
        self
    }

    /// Allows the addresses for which the caller's test answers true.
    pub fn socket_addr_check(&mut self, test: AddrTest) -> &mut WasiCtxBuilder
        requires { AddrTest.IsAlwaysCallable test }
        ensures same { result.ghost_name ≡ self.entry.ghost_name }
        ensures rest { result.now ≡ record self.entry.now { ctx = record self.entry.now.ctx { sockets = record self.entry.now.ctx.sockets { check = result.now.ctx.sockets.check } } } }
        ensures kept { IsHeld result.now.ctx.sockets.check (λ caller. caller.test ≡ test) }
    {
        self.ctx.sockets.check = SocketAddrCheck::Caller(CallerCheck { test });
        self
    }

    /// Whether names of hosts may be looked up. It is not allowed at first.
    pub fn allow_ip_name_lookup(&mut self, enable: bool) -> &mut WasiCtxBuilder
        ensures same { result.ghost_name ≡ self.entry.ghost_name }
        ensures sets { result.now ≡ record self.entry.now { ctx = record self.entry.now.ctx { sockets = record self.entry.now.ctx.sockets { ip_name_lookup = enable } } } }
    {
        self.ctx.sockets.ip_name_lookup = enable;
        self
    }

    /// Whether UDP may be used. It is allowed at first.
    pub fn allow_udp(&mut self, enable: bool) -> &mut WasiCtxBuilder
        ensures same { result.ghost_name ≡ self.entry.ghost_name }
        ensures sets { result.now ≡ record self.entry.now { ctx = record self.entry.now.ctx { sockets = record self.entry.now.ctx.sockets { udp = enable } } } }
    {
        self.ctx.sockets.udp = enable;
        self
    }

    /// Whether TCP may be used. It is allowed at first.
    pub fn allow_tcp(&mut self, enable: bool) -> &mut WasiCtxBuilder
        ensures same { result.ghost_name ≡ self.entry.ghost_name }
        ensures sets { result.now ≡ record self.entry.now { ctx = record self.entry.now.ctx { sockets = record self.entry.now.ctx.sockets { tcp = enable } } } }
    {
        self.ctx.sockets.tcp = enable;
        self
    }

    /// The context as it was set.
    pub fn build(self) -> WasiCtx
        ensures { result ≡ self.ctx }
    {
        self.ctx
    }

    /// The context as it was set, for a guest of preview 1.
    pub fn build_p1(self) -> WasiP1Ctx
        ensures { result.wasi ≡ self.ctx }
    {
        WasiP1Ctx::new(self.build())
    }
}

fn stdio(number: u32, terminal: bool) -> OutKind
    ensures { result ≡ OutKind.Stdio number terminal }
{
    OutKind::Stdio { number, terminal }
}

// The two defaults below are made here and not by `default` of their crates: a call into another
// crate that gives out or changes what may hold a caller's object counts as one that makes it.

/// The default clocks.
fn still_clocks() -> WasiClocksCtx
    ensures { ⟦<WasiClocksCtx as Default>⟧.is_default result }
{
    WasiClocksCtx {
        wall_clock: HeldWallClock::Plain {
            now: WallTime::zero(),
            resolution: WallTime::one_nanosecond(),
        },
        monotonic_clock: HeldMonotonicClock::Plain {
            now: 0,
            resolution: 1,
        },
    }
}

/// The default random sources.
fn seeded_sources() -> WasiRandomCtx
    ensures { ⟦<WasiRandomCtx as Default>⟧.is_default result }
{
    WasiRandomCtx {
        random: Generator::Seeded(seeded_rng(0)),
        insecure_random: Generator::Seeded(seeded_rng(0)),
        insecure_random_seed: 0,
        max_size: DEFAULT_MAX_SIZE,
    }
}
