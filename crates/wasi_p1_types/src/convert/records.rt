ghost use Rattle.std.specs.Prelude.{◌≡◌};
ghost use Rattle.wasi_p1_types.specs.Records.{p0_fdstat, p0_filestat, p1_subscription_clock, p1_subscription_u, p1_subscription};

use crate::{p0, p1};

impl From<p1::Fdstat> for p0::Fdstat {
    ghost from_gives = { λ stat result. result ≡ p0_fdstat stat };

    fn from(stat: p1::Fdstat) -> p0::Fdstat {
        p0::Fdstat {
            fs_filetype: stat.fs_filetype,
            fs_flags: stat.fs_flags.into(),
            fs_rights_base: stat.fs_rights_base.into(),
            fs_rights_inheriting: stat.fs_rights_inheriting.into(),
        }
    }
}

impl From<p1::Filestat> for p0::Filestat {
    ghost from_gives = { λ stat result. result ≡ p0_filestat stat };

    fn from(stat: p1::Filestat) -> p0::Filestat {
        p0::Filestat {
            dev: stat.dev,
            ino: stat.ino,
            filetype: stat.filetype,
            nlink: stat.nlink.min(u64::from(u32::MAX)) as u32,
            size: stat.size,
            atim: stat.atim,
            mtim: stat.mtim,
            ctim: stat.ctim,
        }
    }
}

impl From<p0::SubscriptionClock> for p1::SubscriptionClock {
    ghost from_gives = { λ clock result. result ≡ p1_subscription_clock clock };

    fn from(clock: p0::SubscriptionClock) -> p1::SubscriptionClock {
        p1::SubscriptionClock {
            id: clock.id,
            timeout: clock.timeout,
            precision: clock.precision,
            flags: clock.flags.into(),
        }
    }
}

impl From<p0::SubscriptionU> for p1::SubscriptionU {
    ghost from_gives = { λ wait result. result ≡ p1_subscription_u wait };

    fn from(wait: p0::SubscriptionU) -> p1::SubscriptionU {
        match wait {
            p0::SubscriptionU::Clock(clock) => p1::SubscriptionU::Clock(clock.into()),
            p0::SubscriptionU::FdRead(read) => p1::SubscriptionU::FdRead(read),
            p0::SubscriptionU::FdWrite(write) => p1::SubscriptionU::FdWrite(write),
        }
    }
}

impl From<p0::Subscription> for p1::Subscription {
    ghost from_gives = { λ wait result. result ≡ p1_subscription wait };

    fn from(wait: p0::Subscription) -> p1::Subscription {
        p1::Subscription {
            userdata: wait.userdata,
            u: wait.u.into(),
        }
    }
}
