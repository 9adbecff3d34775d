ghost use Rattle.std.specs.Prelude.{◌≡◌, ℕ, IfSome, Option};

use crate::WallTime;

/// A wall clock of the caller's.
pub trait HostWallClock: Send + Drop {
    ghost use Rattle.std.specs.Prelude.{◌≡◌, IfSome, Option};
    ghost use Rattle.wasi_clocks.specs.declared.wall_times.WallTime.{WallTime};

    // What `now` reads, where the clock tells it.
    ghost wall_now_told: { Self → Option WallTime };

    // What `resolution` is, where the clock tells it.
    ghost wall_resolution_told: { Self → Option WallTime };

    /// The smallest step of the clock.
    fn resolution(&self) -> WallTime
        ensures { IfSome (wall_resolution_told self.now) (λ told. result ≡ told) };

    /// The time since the beginning of 1970.
    fn now(&self) -> WallTime
        ensures { IfSome (wall_now_told self.now) (λ told. result ≡ told) };
}

/// A monotonic clock of the caller's. It counts nanoseconds from a beginning of its own.
pub trait HostMonotonicClock: Send + Drop {
    // What `now` reads, where the clock tells it.
    ghost mono_now_told: { Self → Option ℕ };

    // What `resolution` is, where the clock tells it.
    ghost mono_resolution_told: { Self → Option ℕ };

    /// The smallest step of the clock, in nanoseconds.
    fn resolution(&self) -> u64
        ensures { IfSome (mono_resolution_told self.now) (λ told. result ≡ told) };

    /// The nanoseconds since the clock's beginning.
    fn now(&self) -> u64
        ensures { IfSome (mono_now_told self.now) (λ told. result ≡ told) };
}
