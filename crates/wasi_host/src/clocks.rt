ghost use Rattle.std.specs.Prelude.{◌≡◌};
ghost use Rattle.wasi_clocks.specs.WallTimes.{no_time, one_nanosecond};
ghost use Rattle.wasi_host.specs.Clocks.{new_clocks, clocks_after};

use wasi_clocks::WallTime;
use wasi_script::ClockSetting;

/// The clocks of a session, which lines set and all guests see.
#[derive(Clone, Copy, Debug, PartialEq, Eq, Drop)]
pub struct Clocks {
    pub wall_now: WallTime,
    /// The smallest step of the wall clock.
    pub wall_resolution: WallTime,
    /// In nanoseconds, as its smallest step is.
    pub monotonic_now: u64,
    pub monotonic_resolution: u64,
}

impl Clocks {
    /// Both clocks stand at 0, with a resolution of 1 nanosecond.
    pub fn new() -> Clocks
        ensures { result ≡ new_clocks }
    {
        Clocks {
            wall_now: no_time(),
            wall_resolution: one_nanosecond(),
            monotonic_now: 0,
            monotonic_resolution: 1,
        }
    }

    /// Does what a line says of a clock.
    pub fn set(&mut self, setting: ClockSetting)
        ensures { self.new ≡ clocks_after setting self.old }
    {
        match setting {
            ClockSetting::Monotonic(now) => self.monotonic_now = now,
            ClockSetting::MonotonicResolution(resolution) => {
                self.monotonic_resolution = resolution;
            }
            ClockSetting::Wall(now) => self.wall_now = now,
            ClockSetting::WallResolution(resolution) => self.wall_resolution = resolution,
        }
    }
}

fn no_time() -> WallTime
    ensures { result ≡ no_time }
{
    WallTime {
        seconds: 0,
        nanoseconds: 0,
    }
}

fn one_nanosecond() -> WallTime
    ensures { result ≡ one_nanosecond }
{
    WallTime {
        seconds: 0,
        nanoseconds: 1,
    }
}
