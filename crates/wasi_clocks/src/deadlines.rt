ghost use Rattle.std.specs.Prelude.{◌≡◌, ◌+◌};
ghost use Rattle.wasi_clocks.specs.Deadlines.{deadline_after, deadline_at, deadline_is_ready, polled, IsReadyFrom};

/// What a subscription to the monotonic clock waits for, in that clock's nanoseconds.
#[derive(Clone, Copy, Debug, PartialEq, Eq)]
pub enum Deadline {
    /// The time had come when it was made. The first poll still yields.
    Past { yielded: bool },
    /// Ready from this time on.
    Instant(u64),
    /// The time is past the clock's last one.
    Never,
}

/// A deadline `duration` nanoseconds after `now`.
pub fn subscribe_duration(now: u64, duration: u64) -> Deadline
    ensures made { result ≡ deadline_after now duration }
    ensures in_time { IsReadyFrom (deadline_is_ready (polled result)) now (now + duration) }
{
    if duration == 0 {
        return Deadline::Past { yielded: false };
    }
    match now.checked_add(duration) {
        Some(when) => Deadline::Instant(when),
        None => Deadline::Never,
    }
}

/// A deadline at the time `when`.
pub fn subscribe_instant(now: u64, when: u64) -> Deadline
    ensures made { result ≡ deadline_at now when }
    ensures in_time { IsReadyFrom (deadline_is_ready (polled result)) now when }
{
    if when > now {
        Deadline::Instant(when)
    } else {
        Deadline::Past { yielded: false }
    }
}

impl Deadline {
    /// Whether the deadline has come at `now`. A deadline that was past when it was made yields
    /// once: its first poll is not ready, and each later one is.
    pub fn ready(&mut self, now: u64) -> bool
        ensures ready { result ≡ deadline_is_ready self.old now }
        ensures polled { self.new ≡ polled self.old }
    {
        match self {
            Deadline::Past { yielded } => {
                let ready = *yielded;
                *yielded = true;
                ready
            }
            Deadline::Instant(when) => now >= *when,
            Deadline::Never => false,
        }
    }
}
