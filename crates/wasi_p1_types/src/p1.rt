//! The types of preview 1.

mod flags;

pub use crate::both::{
    Advice, Clockid, Fd, Filetype, Prestat, PrestatDir, Signal, SubscriptionFdReadwrite, Whence,
};
pub use crate::errno::Errno;
pub use flags::{Fdflags, Fstflags, Lookupflags, Oflags, Rights, Subclockflags};
use wasi_base::TrappableError;

/// An error that the guest is told, a trap, or out of memory.
pub type Error = TrappableError<Errno>;

/// What a descriptor names and allows.
#[derive(Clone, Copy, Debug, PartialEq, Eq)]
pub struct Fdstat {
    pub fs_filetype: Filetype,
    pub fs_flags: Fdflags,
    pub fs_rights_base: Rights,
    /// What descriptors opened through this one may allow.
    pub fs_rights_inheriting: Rights,
}

/// What is known of a file. Times are nanoseconds.
#[derive(Clone, Copy, Debug, PartialEq, Eq)]
pub struct Filestat {
    pub dev: u64,
    pub ino: u64,
    pub filetype: Filetype,
    /// How many names the file has.
    pub nlink: u64,
    /// The length in bytes.
    pub size: u64,
    pub atim: u64,
    pub mtim: u64,
    pub ctim: u64,
}

/// A wait for a clock. Times are nanoseconds.
#[derive(Clone, Copy, Debug, PartialEq, Eq)]
pub struct SubscriptionClock {
    pub id: Clockid,
    pub timeout: u64,
    pub precision: u64,
    pub flags: Subclockflags,
}

/// What a poll waits for.
#[derive(Clone, Copy, Debug, PartialEq, Eq)]
pub enum SubscriptionU {
    Clock(SubscriptionClock),
    FdRead(SubscriptionFdReadwrite),
    FdWrite(SubscriptionFdReadwrite),
}

/// One wait of a poll, with the number that its event hands back.
#[derive(Clone, Copy, Debug, PartialEq, Eq)]
pub struct Subscription {
    pub userdata: u64,
    pub u: SubscriptionU,
}
