ghost use Rattle.std.specs.Prelude.{◌≡◌, ◌<◌};

/// What a wall clock reads, and its resolution: whole seconds, since 1970 where it is a time, and
/// nanoseconds on top of them.
#[derive(Clone, Copy, Debug, PartialEq, Eq)]
pub struct WallTime {
    pub seconds: u64,
    /// Below 1000000000.
    pub nanoseconds: u32,
    pub ghost in_second: { nanoseconds < 1_000_000_000 },
}

impl WallTime {
    ghost use Rattle.wasi_clocks.specs.WallTimes.{no_time, one_nanosecond};

    /// The epoch as a time, or no time at all as a length.
    pub fn zero() -> WallTime
        ensures { result ≡ no_time }
    {
        WallTime {
            seconds: 0,
            nanoseconds: 0,
        }
    }

    /// One nanosecond as a length.
    pub fn one_nanosecond() -> WallTime
        ensures { result ≡ one_nanosecond }
    {
        WallTime {
            seconds: 0,
            nanoseconds: 1,
        }
    }
}

/// A point in time by its distance from the epoch, which is the beginning of 1970.
#[derive(Clone, Copy, Debug, PartialEq, Eq)]
pub struct Moment {
    /// Whether the distance goes back from the epoch.
    pub before_epoch: bool,
    pub seconds: u64,
    /// Below 1000000000. They lengthen the distance, also where it goes back.
    pub nanoseconds: u32,
    pub ghost in_second: { nanoseconds < 1_000_000_000 },
}
