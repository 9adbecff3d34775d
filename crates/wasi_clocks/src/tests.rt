use super::*;
use std::cell::Cell;
use std::test::Fail;
use wasi_base::TrapText;

mod runtime;

#[derive(Drop)]
struct FixedWallClock {
    time: WallTime,
}

impl HostWallClock for FixedWallClock {
    ghost use Rattle.std.specs.Prelude.{Some};

    ghost wall_now_told = { λ clock. Some clock.time };

    ghost wall_resolution_told = { λ clock. Some clock.time };

    fn resolution(&self) -> WallTime {
        self.time
    }

    fn now(&self) -> WallTime {
        self.time
    }
}

#[derive(Drop)]
struct FixedMonotonicClock {
    ticks: u64,
    resolution: u64,
}

impl HostMonotonicClock for FixedMonotonicClock {
    ghost use Rattle.std.specs.Prelude.{Some};

    ghost mono_now_told = { λ clock. Some clock.ticks };

    ghost mono_resolution_told = { λ clock. Some clock.resolution };

    fn resolution(&self) -> u64 {
        self.resolution
    }

    fn now(&self) -> u64 {
        self.ticks
    }
}

#[test]
fn moments(rt: HostRuntime) -> Result<(), Fail> {
    let moment = Moment {
        before_epoch: true,
        seconds: 0,
        nanoseconds: 500_000_000,
    };
    let datetime = Datetime::try_from(moment)?;
    assert_eq!(rt; (datetime.seconds, datetime.nanoseconds), (-1, 500_000_000));
    let rows = [
        ((true, 1, 0), (-1, 0)),
        ((true, 0, 1), (-1, 999_999_999)),
        ((false, 0, 500_000_000), (0, 500_000_000)),
    ];
    for ((before_epoch, seconds, nanoseconds), want) in rows {
        let time = Datetime::try_from(Moment {
            before_epoch,
            seconds,
            nanoseconds,
        })?;
        assert_eq!(rt; (time.seconds, time.nanoseconds), want);
    }
    assert_eq!(rt; P2Datetime::try_from(moment), Err(DatetimeError));
    assert_eq!(rt; P2Datetime::try_from(datetime), Err(DatetimeError));
    assert_eq!(rt; Datetime::from(Instant::from(datetime)), datetime);
    let latest = P2Datetime {
        seconds: u64::MAX,
        nanoseconds: 0,
    };
    assert_eq!(rt; Datetime::try_from(latest), Err(DatetimeError));
    let text = DatetimeError.to_string(rt.alloc())?;
    assert_eq!(rt;
        text.as_str(),
        "couldn't represent time as a WASI `Datetime`"
    );
    let wide = format!(in rt.alloc(); "{DatetimeError:>60.5}")?;
    assert_eq!(rt; wide.as_str(), text.as_str());
    Ok(())
}

#[test]
fn guest_times(rt: HostRuntime) {
    let rows = [
        ((i64::MAX, 1_000_000_000), None),
        ((i64::MAX, 999_999_999), Some((i64::MAX, 999_999_999))),
        ((-1, 1_500_000_000), Some((0, 500_000_000))),
        ((i64::MIN, 0), Some((i64::MIN, 0))),
        ((i64::MIN, u32::MAX), Some((i64::MIN + 4, 294_967_295))),
    ];
    for ((seconds, nanoseconds), want) in rows {
        let time = systemtime_from(Instant {
            seconds,
            nanoseconds,
        });
        assert_eq!(rt;
            time.map(|t| (t.seconds, t.nanoseconds)),
            want,
            "at {seconds}"
        );
    }
    let late = WallTime {
        seconds: 1 << 63,
        nanoseconds: 0,
    };
    assert_eq!(rt; system_now(late), Err(TrapText::NumberOutOfRange));
    assert_eq!(rt; system_resolution(late), Err(TrapText::NumberOutOfRange));
}

#[test]
fn deadlines(rt: HostRuntime) {
    let mut now = 0;
    let mut at_once = subscribe_duration(now, 0);
    assert!(rt; !at_once.ready(now));
    assert!(rt; at_once.ready(now));
    let mut in_five = subscribe_duration(now, 5);
    assert!(rt; !in_five.ready(now));
    now = 5;
    assert!(rt; in_five.ready(now));
    now = u64::MAX;
    let mut never = subscribe_duration(now, 1);
    assert!(rt; !never.ready(now));

    now = 7;
    let mut at_seven = subscribe_instant(now, 7);
    assert!(rt; !at_seven.ready(now));
    assert!(rt; at_seven.ready(now));
    let wait = wait_until(now, 8);
    assert!(rt; !wait.ready(now));
    assert!(rt; wait.ready(8));
    assert!(rt; wait_for(now, 0).ready(now));
}

#[test]
fn held_clocks(rt: HostRuntime) -> Result<(), Fail> {
    let mut clocks = WasiClocksCtx::default();
    assert_eq!(rt; clocks.mono_now(), 0);
    assert_eq!(rt; clocks.mono_resolution(), 1);
    let time = WallTime {
        seconds: 3,
        nanoseconds: 4,
    };
    clocks.hold_wall_clock(Box::new(rt.alloc(), FixedWallClock { time })?);
    clocks.hold_monotonic_clock(Box::new(
        rt.alloc(),
        FixedMonotonicClock {
            ticks: 9,
            resolution: 2,
        },
    )?);
    assert_eq!(rt; clocks.wall_now(), time);
    assert_eq!(rt; clocks.wall_resolution(), time);
    assert_eq!(rt; clocks.mono_now(), 9);
    assert_eq!(rt; clocks.mono_resolution(), 2);
    clocks.set_wall(clocks.wall_now(), clocks.wall_now());
    clocks.set_monotonic(5, 1);
    assert_eq!(rt; clocks.wall_now(), time);
    assert_eq!(rt; clocks.mono_now(), 5);
    Ok(())
}

/// A caller's clock whose every asking is one step of it.
#[derive(Drop)]
struct AskedClock {
    asked: Cell<u32>,
}

impl AskedClock {
    fn ask(&self) -> u32 {
        let asked = self.asked.get();
        self.asked.set(asked.wrapping_add(1));
        asked
    }

    fn ask_for_seconds(&self) -> WallTime {
        WallTime {
            seconds: u64::from(self.ask()),
            nanoseconds: 0,
        }
    }
}

impl HostWallClock for AskedClock {
    ghost use Rattle.std.specs.Prelude.{None};

    ghost wall_now_told = { λ _. None };

    ghost wall_resolution_told = { λ _. None };

    fn resolution(&self) -> WallTime {
        self.ask_for_seconds()
    }

    fn now(&self) -> WallTime {
        self.ask_for_seconds()
    }
}

impl HostMonotonicClock for AskedClock {
    ghost use Rattle.std.specs.Prelude.{None};

    ghost mono_now_told = { λ _. None };

    ghost mono_resolution_told = { λ _. None };

    fn resolution(&self) -> u64 {
        u64::from(self.ask())
    }

    fn now(&self) -> u64 {
        u64::from(self.ask())
    }
}

#[test]
fn a_callers_clock_is_asked_once_an_answer(rt: HostRuntime) -> Result<(), Fail> {
    let mut clocks = WasiClocksCtx::default();
    let asked = Cell::new(0);
    clocks.hold_wall_clock(Box::new(rt.alloc(), AskedClock { asked })?);
    let asked = Cell::new(0);
    clocks.hold_monotonic_clock(Box::new(rt.alloc(), AskedClock { asked })?);
    for i in 0..3u64 {
        assert_eq!(rt; clocks.wall_now().seconds, 2 * i);
        assert_eq!(rt; clocks.wall_resolution().seconds, 2 * i + 1);
        assert_eq!(rt; clocks.mono_now(), 2 * i);
        assert_eq!(rt; clocks.mono_resolution(), 2 * i + 1);
    }
    Ok(())
}
