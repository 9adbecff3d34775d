ghost use Rattle.std.specs.Prelude.{◌≡◌, ℕ, ◌≤◌, IfOk, IfSome, OnErr, IfNone};
ghost use Rattle.std.specs.Duration.{as_nanos};
ghost use Rattle.std.specs.Time.{instant_nanos, system_time_nanos};
ghost use Rattle.wasi_clocks.specs.Runtime.{count_between};
ghost use Rattle.wasi_clocks.specs.WallTimes.{no_time, nanoseconds_of};

use crate::{HostMonotonicClock, HostWallClock, WallTime};
use std::io;
use std::rt::Clock;
use std::time::{Duration, Instant, SystemTime};

/// The runtime's wall clock.
#[derive(Drop)]
pub struct WallClock<R: Clock + Send + Drop> {
    pub rt: R,
}

/// The runtime's wall clock.
pub fn wall_clock<R: Clock + Send + Drop>(rt: R) -> WallClock<R>
    ensures { result ≡ record { rt = rt } }
{
    WallClock { rt }
}

impl<R: Clock + Send + Drop> WallClock<R> {
    /// The same as [`wall_clock`].
    pub fn new(rt: R) -> WallClock<R>
        ensures { result ≡ record { rt = rt } }
    {
        wall_clock(rt)
    }

    /// The same as [`wall_clock`].
    pub fn default(rt: R) -> WallClock<R>
        ensures { result ≡ record { rt = rt } }
    {
        wall_clock(rt)
    }
}

fn wall_time_after(since_epoch: Duration) -> WallTime
    ensures { nanoseconds_of result ≡ as_nanos since_epoch }
{
    WallTime {
        seconds: since_epoch.as_secs(),
        nanoseconds: since_epoch.subsec_nanos(),
    }
}

/// What a wall clock reads where the system's reads this: the same nanoseconds since 1970, and 0
/// where the system's could not be read or stands before the epoch.
fn wall_time_at(time: io::Result<SystemTime>) -> WallTime
    ensures read { IfOk time (λ time. nanoseconds_of result ≡ system_time_nanos time) }
    ensures unread { OnErr time (result ≡ no_time) }
{
    match time {
        Ok(time) => match time.duration_since(SystemTime::UNIX_EPOCH) {
            Ok(since_epoch) => wall_time_after(since_epoch),
            Err(_) => WallTime::zero(),
        },
        Err(_) => WallTime::zero(),
    }
}

/// What a system's clock reads is told by nothing; see `wall_time_at` for what is made of it.
impl<R: Clock + Send + Drop> HostWallClock for WallClock<R> {
    ghost use Rattle.std.specs.Prelude.{Some, None};
    ghost use Rattle.wasi_clocks.specs.WallTimes.{one_nanosecond};

    ghost wall_now_told = { λ _. None };

    ghost wall_resolution_told = { λ _. Some one_nanosecond };

    fn resolution(&self) -> WallTime {
        WallTime::one_nanosecond()
    }

    fn now(&self) -> WallTime {
        wall_time_at(SystemTime::now(&self.rt))
    }
}

/// The runtime's monotonic clock, which counts from its making.
#[derive(Drop)]
pub struct MonotonicClock<R: Clock + Send + Drop> {
    pub rt: R,
    // `None` where the runtime's clock could not be read at the making.
    initial: Option<Instant>,
}

/// The runtime's monotonic clock, which counts from now.
pub fn monotonic_clock<R: Clock + Send + Drop>(rt: R) -> MonotonicClock<R>
    ensures { result.rt ≡ rt }
{
    let initial = Instant::now(&rt).ok();
    MonotonicClock { rt, initial }
}

impl<R: Clock + Send + Drop> MonotonicClock<R> {
    /// The same as [`monotonic_clock`].
    pub fn new(rt: R) -> MonotonicClock<R>
        ensures { result.rt ≡ rt }
    {
        monotonic_clock(rt)
    }

    /// The same as [`monotonic_clock`].
    pub fn default(rt: R) -> MonotonicClock<R>
        ensures { result.rt ≡ rt }
    {
        monotonic_clock(rt)
    }
}

/// What a monotonic clock reads, in nanoseconds, that was made at `initial` where the system's reads
/// this: those in between, at most u64's greatest number, and 0 where one of the two could not be
/// read.
fn count_at(initial: Option<Instant>, now: io::Result<Instant>) -> u64
    ensures counted { IfSome initial (λ start. IfOk now (λ time. result ≡ count_between (instant_nanos start) (instant_nanos time))) }
    ensures no_start { IfNone initial (result ≡ 0) }
    ensures unread { OnErr now (result ≡ 0) }
    ensures never_back { IfSome initial (λ start. IfOk now (λ time. (before : ℕ) → before ≤ instant_nanos time → count_between (instant_nanos start) before ≤ result)) }
{
    match (initial, now) {
        (Some(initial), Ok(now)) => {
            let count = now.duration_since(initial).as_nanos();
            u64::try_from(count).unwrap_or(u64::MAX)
        }
        _ => 0,
    }
}

/// What a system's clock reads is told by nothing; see `count_at` for what is made of it.
impl<R: Clock + Send + Drop> HostMonotonicClock for MonotonicClock<R> {
    ghost use Rattle.std.specs.Prelude.{Some, None};

    ghost mono_now_told = { λ _. None };

    ghost mono_resolution_told = { λ _. Some 1 };

    fn resolution(&self) -> u64 {
        1
    }

    fn now(&self) -> u64 {
        count_at(self.initial, Instant::now(&self.rt))
    }
}
