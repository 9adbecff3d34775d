//! The clocks over the runtime, against fake ones and against the system's own.
//!
//! The system's clock is read before and after each reading, which then lies between the two.

use crate::{
    HostMonotonicClock, HostWallClock, MonotonicClock, WallClock, monotonic_clock, wall_clock,
};
use std::cell::Cell;
use std::rt::Clock;
use std::test::Fail;
use std::time::{Duration, Instant, SystemTime};
use std::{io, thread};

/// A runtime's clocks: the monotonic one goes on by `step` at each reading, and cannot be read
/// from its `fails_at`th reading on. The wall clock stands.
#[derive(Drop)]
struct FakeClock {
    monotonic: Cell<Duration>,
    step: Duration,
    readings: Cell<u32>,
    fails_at: Cell<u32>,
    wall: Option<Duration>,
}

impl Clock for FakeClock {
    fn monotonic(&self) -> io::Result<Duration> {
        if self.readings.get() >= self.fails_at.get() {
            return Err(io::Error::from(io::ErrorKind::Other));
        }
        self.readings.set(self.readings.get().saturating_add(1));
        let reading = self.monotonic.get();
        self.monotonic.set(reading.saturating_add(self.step));
        Ok(reading)
    }

    fn since_1970(&self) -> io::Result<Duration> {
        match self.wall {
            Some(reading) => Ok(reading),
            None => Err(io::Error::from(io::ErrorKind::Other)),
        }
    }
}

fn stepping(step: Duration, fails_at: u32) -> FakeClock {
    FakeClock {
        monotonic: Cell::new(Duration::from_secs(5)),
        step,
        readings: Cell::new(0),
        fails_at: Cell::new(fails_at),
        wall: None,
    }
}

fn standing(wall: Option<Duration>) -> FakeClock {
    let mut clock = stepping(Duration::ZERO, 0);
    clock.wall = wall;
    clock
}

/// The nanoseconds since 1970 by the system's own clock.
fn system_nanoseconds(clock: &impl Clock) -> Result<u128, Fail> {
    Ok(
        SystemTime::now(clock)?
            .duration_since(SystemTime::UNIX_EPOCH)?
            .as_nanos(),
    )
}

#[test]
fn a_wall_clock_reads_the_systems(rt: HostRuntime) -> Result<(), Fail> {
    let clock = WallClock::new(rt.clone()?);
    for _ in 0..3 {
        let before = system_nanoseconds(&rt)?;
        let time = clock.now();
        let after = system_nanoseconds(&rt)?;
        let read = Duration::new(time.seconds, time.nanoseconds).as_nanos();
        assert!(rt; before <= read && read <= after, "{before} {read} {after}");
    }
    let resolution = clock.resolution();
    assert_eq!(rt; (resolution.seconds, resolution.nanoseconds), (0, 1));
    Ok(())
}

#[test]
fn a_wall_clock_keeps_each_nanosecond(rt: HostRuntime) {
    let rows = [
        (None, (0, 0)),
        (Some(Duration::ZERO), (0, 0)),
        (Some(Duration::from_nanos(1)), (0, 1)),
        (
            Some(Duration::from_nanos(1_577_836_800_123_456_789)),
            (1_577_836_800, 123_456_789),
        ),
        // Past what the system's clock is read to.
        (Some(Duration::from_secs(1 << 63)), (0, 0)),
    ];
    for (reading, want) in rows {
        let time = wall_clock(standing(reading)).now();
        assert_eq!(rt; (time.seconds, time.nanoseconds), want);
    }
}

#[test]
fn a_monotonic_clock_counts_from_its_making(rt: HostRuntime) -> Result<(), Fail> {
    let earliest = Instant::now(&rt)?;
    let clock = MonotonicClock::new(rt.clone()?);
    let latest = Instant::now(&rt)?;
    let mut last = 0;
    for i in 1..4u64 {
        let pause = Duration::from_millis(i);
        thread::sleep(&rt, pause);
        let least = latest.elapsed(&rt)?.as_nanos();
        let count = clock.now();
        let most = earliest.elapsed(&rt)?.as_nanos();
        let read = u128::from(count);
        assert!(rt; least <= read && read <= most, "{least} {read} {most}");
        assert!(rt; last <= count);
        last = count;
    }
    assert_eq!(rt; clock.resolution(), 1);
    Ok(())
}

#[test]
fn a_monotonic_clock_reads_0_where_it_cannot_be_read(rt: HostRuntime) {
    let three = Duration::from_nanos(3);
    let clock = monotonic_clock(stepping(three, 3));
    assert_eq!(rt; clock.now(), 3);
    assert_eq!(rt; clock.now(), 6);
    assert_eq!(rt; clock.now(), 0);
    let unmade = monotonic_clock(stepping(three, 0));
    unmade.rt.fails_at.set(9);
    assert_eq!(rt; unmade.now(), 0);
    let past_u64 = monotonic_clock(stepping(Duration::from_secs(20_000_000_000), 2));
    assert_eq!(rt; past_u64.now(), u64::MAX);
}
