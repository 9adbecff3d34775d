ghost use Rattle.std.specs.Prelude.{◌≡◌, IfSome};
ghost use Rattle.wasi_clocks.specs.Held.{on_wall_clock, on_monotonic_clock};

use crate::{HostMonotonicClock, HostWallClock, WallTime};

/// A context's wall clock.
#[derive(Drop)]
pub enum HeldWallClock {
    /// Plain values, which stand until they are set again.
    Plain { now: WallTime, resolution: WallTime },
    /// The caller's clock, asked at each call.
    Caller(Box<dyn HostWallClock>),
}

/// A context's monotonic clock, in nanoseconds.
#[derive(Drop)]
pub enum HeldMonotonicClock {
    /// Plain values, which stand until they are set again.
    Plain { now: u64, resolution: u64 },
    /// The caller's clock, asked at each call.
    Caller(Box<dyn HostMonotonicClock>),
}

/// The clocks of a context.
#[derive(Drop)]
pub struct WasiClocksCtx {
    pub wall_clock: HeldWallClock,
    pub monotonic_clock: HeldMonotonicClock,
}

/// Both clocks stand at 0, with a resolution of 1 nanosecond.
impl Default for WasiClocksCtx {
    ghost use Rattle.std.specs.Prelude.{◌≡◌};
    ghost use Rattle.wasi_clocks.specs.WallTimes.{no_time, one_nanosecond};
    ghost use Rattle.wasi_clocks.specs.declared.context.HeldWallClock.TheVariants as wall;
    ghost use Rattle.wasi_clocks.specs.declared.context.HeldMonotonicClock.TheVariants as mono;

    ghost is_default = { λ clocks. clocks ≡ record {
      wall_clock = wall.Plain no_time one_nanosecond;
      monotonic_clock = mono.Plain 0 1;
    } };

    fn default() -> WasiClocksCtx {
        WasiClocksCtx {
            wall_clock: HeldWallClock::Plain {
                now: WallTime::zero(),
                resolution: WallTime::one_nanosecond(),
            },
            monotonic_clock: HeldMonotonicClock::Plain {
                now: 0,
                resolution: 1,
            },
        }
    }
}

impl WasiClocksCtx {
    /// Holds a wall clock of plain values, in place of the one held so far.
    pub fn set_wall(&mut self, now: WallTime, resolution: WallTime)
        ensures { self.new ≡ record self.old { wall_clock = HeldWallClock.Plain now resolution } }
    {
        self.wall_clock = HeldWallClock::Plain { now, resolution };
    }

    /// Holds a monotonic clock of plain values, in place of the one held so far.
    pub fn set_monotonic(&mut self, now: u64, resolution: u64)
        ensures { self.new ≡ record self.old { monotonic_clock = HeldMonotonicClock.Plain now resolution } }
    {
        self.monotonic_clock = HeldMonotonicClock::Plain { now, resolution };
    }

    /// Holds the caller's wall clock, in place of the one held so far.
    pub fn hold_wall_clock(&mut self, clock: Box<dyn HostWallClock>)
        ensures { self.new ≡ record self.old { wall_clock = HeldWallClock.Caller clock } }
    {
        self.wall_clock = HeldWallClock::Caller(clock);
    }

    /// Holds the caller's monotonic clock, in place of the one held so far.
    pub fn hold_monotonic_clock(&mut self, clock: Box<dyn HostMonotonicClock>)
        ensures { self.new ≡ record self.old { monotonic_clock = HeldMonotonicClock.Caller clock } }
    {
        self.monotonic_clock = HeldMonotonicClock::Caller(clock);
    }

    /// What the wall clock reads.
    pub fn wall_now(&self) -> WallTime
        ensures { on_wall_clock self.now.wall_clock (λ now _. result ≡ now)
            (λ clock. IfSome (wall_now_told clock) (λ told. result ≡ told)) }
    {
        match &self.wall_clock {
            HeldWallClock::Plain { now, resolution: _ } => *now,
            HeldWallClock::Caller(clock) => clock.now(),
        }
    }

    /// The smallest step of the wall clock.
    pub fn wall_resolution(&self) -> WallTime
        ensures { on_wall_clock self.now.wall_clock (λ _ resolution. result ≡ resolution)
            (λ clock. IfSome (wall_resolution_told clock) (λ told. result ≡ told)) }
    {
        match &self.wall_clock {
            HeldWallClock::Plain { now: _, resolution } => *resolution,
            HeldWallClock::Caller(clock) => clock.resolution(),
        }
    }

    /// What the monotonic clock reads, in nanoseconds.
    pub fn mono_now(&self) -> u64
        ensures { on_monotonic_clock self.now.monotonic_clock (λ now _. result ≡ now)
            (λ clock. IfSome (mono_now_told clock) (λ told. result ≡ told)) }
    {
        match &self.monotonic_clock {
            HeldMonotonicClock::Plain { now, resolution: _ } => *now,
            HeldMonotonicClock::Caller(clock) => clock.now(),
        }
    }

    /// The smallest step of the monotonic clock, in nanoseconds.
    pub fn mono_resolution(&self) -> u64
        ensures { on_monotonic_clock self.now.monotonic_clock (λ _ resolution. result ≡ resolution)
            (λ clock. IfSome (mono_resolution_told clock) (λ told. result ≡ told)) }
    {
        match &self.monotonic_clock {
            HeldMonotonicClock::Plain { now: _, resolution } => *resolution,
            HeldMonotonicClock::Caller(clock) => clock.resolution(),
        }
    }
}
