ghost use Rattle.std.specs.Prelude.{◌≡◌, option_map};
ghost use Rattle.wasi_fs_types.specs.Records.{p3_stat, p3_hash};
ghost use Rattle.wasi_clocks.specs.Instants.{datetime_to_instant};

use crate::{DescriptorStat, MetadataHashValue, p3};
use wasi_clocks::{Datetime, Instant};

impl From<DescriptorStat> for p3::DescriptorStat {
    ghost from_gives = { λ stat result. result ≡ p3_stat stat };

    fn from(stat: DescriptorStat) -> p3::DescriptorStat {
        p3::DescriptorStat {
            type_: stat.type_.into(),
            link_count: stat.link_count,
            size: stat.size,
            data_access_timestamp: instant_of(stat.data_access_timestamp),
            data_modification_timestamp: instant_of(stat.data_modification_timestamp),
            status_change_timestamp: instant_of(stat.status_change_timestamp),
        }
    }
}

impl From<MetadataHashValue> for p3::MetadataHashValue {
    ghost from_gives = { λ hash result. result ≡ p3_hash hash };

    fn from(hash: MetadataHashValue) -> p3::MetadataHashValue {
        p3::MetadataHashValue {
            lower: hash.lower,
            upper: hash.upper,
        }
    }
}

/// The time of WASI 0.3, where there is one.
fn instant_of(time: Option<Datetime>) -> Option<Instant>
    ensures { result ≡ option_map datetime_to_instant time }
{
    match time {
        Some(time) => Some(Instant::from(time)),
        None => None,
    }
}
