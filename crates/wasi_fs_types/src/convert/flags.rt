ghost use Rattle.std.specs.Prelude.{◌≡◌};
ghost use Rattle.wasi_fs_types.specs.Records.{p3_descriptor_flags, host_descriptor_flags, host_open_flags, host_path_flags};

use crate::{DescriptorFlags, OpenFlags, PathFlags, p3};
use bitflags::Flags;

impl From<DescriptorFlags> for p3::DescriptorFlags {
    ghost from_gives = { λ flags result. result ≡ p3_descriptor_flags flags };

    fn from(flags: DescriptorFlags) -> p3::DescriptorFlags {
        p3::DescriptorFlags::from_bits_truncate(flags.bits())
    }
}

impl From<p3::DescriptorFlags> for DescriptorFlags {
    ghost from_gives = { λ flags result. result ≡ host_descriptor_flags flags };

    fn from(flags: p3::DescriptorFlags) -> DescriptorFlags {
        DescriptorFlags::from_bits_truncate(flags.bits())
    }
}

impl From<p3::OpenFlags> for OpenFlags {
    ghost from_gives = { λ flags result. result ≡ host_open_flags flags };

    fn from(flags: p3::OpenFlags) -> OpenFlags {
        OpenFlags::from_bits_truncate(flags.bits())
    }
}

impl From<p3::PathFlags> for PathFlags {
    ghost from_gives = { λ flags result. result ≡ host_path_flags flags };

    fn from(flags: p3::PathFlags) -> PathFlags {
        PathFlags::from_bits_truncate(flags.bits())
    }
}
