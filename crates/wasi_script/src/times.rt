ghost use Rattle.std.specs.Prelude.{◌≡◌};
ghost use Rattle.wasi_script.specs.Times.{wall_time, time_of};

use wasi_clocks::WallTime;
use wasi_words::{Parts, only, parse_number};

/// Whole seconds, and nanoseconds below a second.
pub fn parse_time(mut words: Parts) -> Option<WallTime>
    ensures { result ≡ time_of words.entry }
{
    let seconds = parse_number(words.next()?)?;
    let nanoseconds = parse_number(only(words)?)?;
    wall_time(seconds, nanoseconds)
}

fn wall_time(seconds: u64, nanoseconds: u64) -> Option<WallTime>
    ensures { result ≡ wall_time seconds nanoseconds }
{
    if nanoseconds >= 1_000_000_000 {
        return None;
    }
    Some(WallTime {
        seconds,
        nanoseconds: nanoseconds as u32,
    })
}
