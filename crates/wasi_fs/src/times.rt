ghost use Rattle.std.specs.Prelude.{◌≡◌};
ghost use Rattle.wasi_fs.specs.Times.{time_of, told_time, new_time};

use wasi_clocks::{Datetime, WallTime, system_now, systemtime_from};
use wasi_fs_types::{ErrorCode, NewTimestamp};

/// What the wall clock reads, as nodes keep it; `None` exactly where its seconds do not fit.
pub(crate) fn time_of(wall: WallTime) -> Option<Datetime>
    ensures { result ≡ time_of wall }
{
    match system_now(wall) {
        Ok(instant) => Some(Datetime::from(instant)),
        Err(_) => None,
    }
}

/// The time that a node is given; `None` leaves the one that it has.
pub(crate) fn new_time(new: NewTimestamp, now: WallTime) -> Result<Option<Datetime>, ErrorCode>
    ensures { result ≡ new_time new now }
{
    let time = match new {
        NewTimestamp::NoChange => return Ok(None),
        NewTimestamp::Now => time_of(now),
        NewTimestamp::Timestamp(instant) => systemtime_from(instant),
    };
    match time {
        Some(time) => Ok(Some(time)),
        None => Err(ErrorCode::Overflow),
    }
}
