ghost use Rattle.std.specs.Prelude.{◌≡◌, ◌<◌, pos, IfOk};

use crate::{Instant, Moment};
use std::convert::TryFrom;
use std::fmt;

/// A time as the filesystem keeps it: seconds since the epoch, negative before it, and nanoseconds
/// that always go forward from them.
#[derive(Clone, Copy, Debug, PartialEq, Eq)]
pub struct Datetime {
    pub seconds: i64,
    pub nanoseconds: u32,
}

/// A time of WASI 0.2: seconds since the epoch, and nanoseconds on top of them.
#[derive(Clone, Copy, Debug, PartialEq, Eq)]
pub struct P2Datetime {
    pub seconds: u64,
    pub nanoseconds: u32,
}

/// A time whose seconds the target of a conversion has no number for.
#[derive(Clone, Copy, Debug, PartialEq, Eq)]
pub struct DatetimeError;

/// The text as it is, also where a width or a precision is asked for.
impl fmt::Display for DatetimeError {
    ghost use Rattle.std.specs.Prelude.{Some};
    ghost use Rattle.wasi_clocks.specs.Datetimes.{datetime_error_text};

    ghost output = { λ _. Some datetime_error_text };

    ghost styled_output = { λ _ _. Some datetime_error_text };

    fn fmt<W: fmt::Write>(&self, f: &mut fmt::Formatter<W>) -> fmt::Result {
        f.write_str("couldn't represent time as a WASI `Datetime`")
    }
}

impl std::error::Error for DatetimeError {}

impl Moment {
    ghost use Rattle.wasi_clocks.specs.WallTimes.{whole_seconds, nanoseconds_past};

    /// The last whole second of the epoch's count that is not after it.
    fn whole_seconds(&self) -> i128
        ensures { result ≡ whole_seconds self.now }
    {
        let seconds = i128::from(self.seconds);
        if !self.before_epoch {
            seconds
        } else if self.nanoseconds == 0 {
            -seconds
        } else {
            -seconds - 1
        }
    }

    /// The nanoseconds from that second on.
    fn nanoseconds_past(&self) -> u32
        ensures { result ≡ nanoseconds_past self.now }
    {
        if self.before_epoch && self.nanoseconds != 0 {
            1_000_000_000 - self.nanoseconds
        } else {
            self.nanoseconds
        }
    }
}

impl Datetime {
    ghost use Rattle.wasi_clocks.specs.Datetimes.{datetime_at};

    /// The time of these numbers; `None` exactly where the seconds do not fit.
    pub(crate) fn at(seconds: i128, nanoseconds: u32) -> Option<Datetime>
        ensures { result ≡ datetime_at seconds nanoseconds }
    {
        match i64::try_from(seconds) {
            Ok(seconds) => Some(Datetime {
                seconds,
                nanoseconds,
            }),
            Err(_) => None,
        }
    }
}

impl P2Datetime {
    ghost use Rattle.wasi_clocks.specs.Datetimes.{p2_datetime_at};

    /// The time of these numbers; `None` exactly where the seconds do not fit.
    fn at(seconds: i128, nanoseconds: u32) -> Option<P2Datetime>
        ensures { result ≡ p2_datetime_at seconds nanoseconds }
    {
        match u64::try_from(seconds) {
            Ok(seconds) => Some(P2Datetime {
                seconds,
                nanoseconds,
            }),
            Err(_) => None,
        }
    }
}

impl TryFrom<Moment> for Datetime {
    ghost use Rattle.wasi_clocks.specs.WallTimes.{time_of_moment};
    ghost use Rattle.wasi_clocks.specs.Datetimes.{moment_to_datetime, time_of_datetime};

    type Error = DatetimeError;

    ghost try_from_gives = { λ moment result. result ≡ moment_to_datetime moment };

    fn try_from(moment: Moment) -> Result<Datetime, DatetimeError>
        ensures gives { result ≡ moment_to_datetime moment }
        ensures same_time { IfOk result (λ datetime. time_of_datetime datetime ≡ time_of_moment moment) }
        ensures in_second { IfOk result (λ datetime. datetime.nanoseconds < 1_000_000_000) }
    {
        Datetime::at(moment.whole_seconds(), moment.nanoseconds_past()).ok_or(DatetimeError)
    }
}

impl TryFrom<Moment> for P2Datetime {
    ghost use Rattle.wasi_clocks.specs.WallTimes.{time_of_moment};
    ghost use Rattle.wasi_clocks.specs.Datetimes.{moment_to_p2, time_at};

    type Error = DatetimeError;

    ghost try_from_gives = { λ moment result. result ≡ moment_to_p2 moment };

    fn try_from(moment: Moment) -> Result<P2Datetime, DatetimeError>
        ensures gives { result ≡ moment_to_p2 moment }
        ensures same_time { IfOk result (λ p2. time_at (pos p2.seconds) p2.nanoseconds ≡ time_of_moment moment) }
        ensures in_second { IfOk result (λ p2. p2.nanoseconds < 1_000_000_000) }
    {
        P2Datetime::at(moment.whole_seconds(), moment.nanoseconds_past()).ok_or(DatetimeError)
    }
}

impl TryFrom<Datetime> for P2Datetime {
    ghost use Rattle.wasi_clocks.specs.Datetimes.{datetime_to_p2, p2_to_datetime};

    type Error = DatetimeError;

    ghost try_from_gives = { λ time result. result ≡ datetime_to_p2 time };

    fn try_from(time: Datetime) -> Result<P2Datetime, DatetimeError>
        ensures gives { result ≡ datetime_to_p2 time }
        ensures and_back { IfOk result (λ p2. p2_to_datetime p2 ≡ Ok time) }
    {
        P2Datetime::at(i128::from(time.seconds), time.nanoseconds).ok_or(DatetimeError)
    }
}

impl TryFrom<P2Datetime> for Datetime {
    ghost use Rattle.wasi_clocks.specs.Datetimes.{datetime_to_p2, p2_to_datetime};

    type Error = DatetimeError;

    ghost try_from_gives = { λ time result. result ≡ p2_to_datetime time };

    fn try_from(time: P2Datetime) -> Result<Datetime, DatetimeError>
        ensures gives { result ≡ p2_to_datetime time }
        ensures and_back { IfOk result (λ datetime. datetime_to_p2 datetime ≡ Ok time) }
    {
        Datetime::at(i128::from(time.seconds), time.nanoseconds).ok_or(DatetimeError)
    }
}

impl From<Instant> for Datetime {
    ghost use Rattle.wasi_clocks.specs.Instants.{instant_to_datetime, datetime_to_instant};

    ghost from_gives = { λ instant result. result ≡ instant_to_datetime instant };

    fn from(instant: Instant) -> Datetime
        ensures gives { result ≡ instant_to_datetime instant }
        ensures and_back { datetime_to_instant result ≡ instant }
    {
        Datetime {
            seconds: instant.seconds,
            nanoseconds: instant.nanoseconds,
        }
    }
}

impl From<Datetime> for Instant {
    ghost use Rattle.wasi_clocks.specs.Instants.{instant_to_datetime, datetime_to_instant};

    ghost from_gives = { λ time result. result ≡ datetime_to_instant time };

    fn from(time: Datetime) -> Instant
        ensures gives { result ≡ datetime_to_instant time }
        ensures and_back { instant_to_datetime result ≡ time }
    {
        Instant {
            seconds: time.seconds,
            nanoseconds: time.nanoseconds,
        }
    }
}
