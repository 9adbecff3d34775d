//! The clocks of a host: times and their conversions, deadlines and waits, and the context that
//! holds a wall clock and a monotonic clock. No call of this crate takes memory.
#![tactic(auto)]

mod context;
mod datetimes;
mod deadlines;
mod hosts;
mod instants;
mod runtime;
#[cfg(test)]
mod tests;
mod waits;
mod wall_times;

pub use context::{HeldMonotonicClock, HeldWallClock, WasiClocksCtx};
pub use datetimes::{Datetime, DatetimeError, P2Datetime};
pub use deadlines::{Deadline, subscribe_duration, subscribe_instant};
pub use hosts::{HostMonotonicClock, HostWallClock};
pub use instants::{Instant, system_now, system_resolution, systemtime_from};
pub use runtime::{MonotonicClock, WallClock, monotonic_clock, wall_clock};
pub use waits::{Wait3, wait_for, wait_until};
pub use wall_times::{Moment, WallTime};
