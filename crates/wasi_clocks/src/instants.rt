ghost use Rattle.std.specs.Prelude.{◌≡◌, ◌<◌, IfSome};
ghost use Rattle.wasi_clocks.specs.Instants.{instant_of_wall, nanoseconds_in, carried, time_of_instant};
ghost use Rattle.wasi_clocks.specs.Datetimes.{time_of_datetime};

use crate::{Datetime, WallTime};
use wasi_base::TrapText;

/// A time of WASI 0.3: seconds since the epoch, negative before it, and nanoseconds that always go
/// forward from them. Nothing keeps the nanoseconds below a second.
#[derive(Clone, Copy, Debug, PartialEq, Eq)]
pub struct Instant {
    pub seconds: i64,
    pub nanoseconds: u32,
}

/// What the system clock of WASI 0.3 reads. The guest is trapped exactly where the seconds do not
/// fit.
pub fn system_now(wall: WallTime) -> Result<Instant, TrapText>
    ensures { result ≡ instant_of_wall wall }
{
    match i64::try_from(wall.seconds) {
        Ok(seconds) => Ok(Instant {
            seconds,
            nanoseconds: wall.nanoseconds,
        }),
        Err(_) => Err(TrapText::NumberOutOfRange),
    }
}

/// The resolution in nanoseconds. The guest is trapped exactly where their number does not fit.
pub fn system_resolution(res: WallTime) -> Result<u64, TrapText>
    ensures { result ≡ nanoseconds_in res }
{
    let nanoseconds = u128::from(res.seconds) * 1_000_000_000 + u128::from(res.nanoseconds);
    u64::try_from(nanoseconds).map_err(|_| TrapText::NumberOutOfRange)
}

/// The time that a guest names: its nanoseconds carry a second per 1000000000. `None` exactly
/// where the seconds then do not fit.
pub fn systemtime_from(t: Instant) -> Option<Datetime>
    ensures carried { result ≡ carried t }
    ensures same_time { IfSome result (λ datetime. time_of_datetime datetime ≡ time_of_instant t) }
    ensures in_second { IfSome result (λ datetime. datetime.nanoseconds < 1_000_000_000) }
{
    let seconds = i128::from(t.seconds) + i128::from(t.nanoseconds / 1_000_000_000);
    Datetime::at(seconds, t.nanoseconds % 1_000_000_000)
}
