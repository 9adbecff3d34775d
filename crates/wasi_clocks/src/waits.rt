ghost use Rattle.std.specs.Prelude.{◌≡◌, ◌+◌};
ghost use Rattle.wasi_clocks.specs.Deadlines.{IsReadyFrom};
ghost use Rattle.wasi_clocks.specs.Waits.{wait_to, wait_after, wait_is_ready};

/// What a wait on the monotonic clock waits for, in that clock's nanoseconds.
#[derive(Clone, Copy, Debug, PartialEq, Eq)]
pub enum Wait3 {
    /// The time had come when it was made.
    Done,
    /// Ready from this time on.
    Until(u64),
    /// The time is past the clock's last one.
    Never,
}

/// A wait until the time `when`.
pub fn wait_until(now: u64, when: u64) -> Wait3
    ensures made { result ≡ wait_to now when }
    ensures in_time { IsReadyFrom (wait_is_ready result) now when }
{
    if when <= now {
        Wait3::Done
    } else {
        Wait3::Until(when)
    }
}

/// A wait of `duration` nanoseconds.
pub fn wait_for(now: u64, duration: u64) -> Wait3
    ensures made { result ≡ wait_after now duration }
    ensures in_time { IsReadyFrom (wait_is_ready result) now (now + duration) }
{
    if duration == 0 {
        return Wait3::Done;
    }
    match now.checked_add(duration) {
        Some(when) => Wait3::Until(when),
        None => Wait3::Never,
    }
}

impl Wait3 {
    /// Whether the wait is over at `now`.
    pub fn ready(&self, now: u64) -> bool
        ensures { result ≡ wait_is_ready self.now now }
    {
        match *self {
            Wait3::Done => true,
            Wait3::Until(when) => now >= when,
            Wait3::Never => false,
        }
    }
}
