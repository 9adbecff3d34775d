ghost use Rattle.std.specs.Prelude.{◌≡◌};
ghost use Rattle.wasi_p1_types.specs.Records.{p1_fdflags, p0_fdflags, p1_rights, p0_rights, p1_lookupflags, p1_fstflags, p1_oflags, p1_subclockflags};

use crate::{p0, p1};
use bitflags::Flags;

impl From<p0::Fdflags> for p1::Fdflags {
    ghost from_gives = { λ flags result. result ≡ p1_fdflags flags };

    fn from(flags: p0::Fdflags) -> p1::Fdflags {
        p1::Fdflags::from_bits_truncate(flags.bits())
    }
}

impl From<p1::Fdflags> for p0::Fdflags {
    ghost from_gives = { λ flags result. result ≡ p0_fdflags flags };

    fn from(flags: p1::Fdflags) -> p0::Fdflags {
        p0::Fdflags::from_bits_truncate(flags.bits())
    }
}

impl From<p0::Rights> for p1::Rights {
    ghost from_gives = { λ flags result. result ≡ p1_rights flags };

    fn from(flags: p0::Rights) -> p1::Rights {
        p1::Rights::from_bits_truncate(flags.bits())
    }
}

impl From<p1::Rights> for p0::Rights {
    ghost from_gives = { λ flags result. result ≡ p0_rights flags };

    fn from(flags: p1::Rights) -> p0::Rights {
        p0::Rights::from_bits_truncate(flags.bits())
    }
}

impl From<p0::Lookupflags> for p1::Lookupflags {
    ghost from_gives = { λ flags result. result ≡ p1_lookupflags flags };

    fn from(flags: p0::Lookupflags) -> p1::Lookupflags {
        p1::Lookupflags::from_bits_truncate(flags.bits())
    }
}

impl From<p0::Fstflags> for p1::Fstflags {
    ghost from_gives = { λ flags result. result ≡ p1_fstflags flags };

    fn from(flags: p0::Fstflags) -> p1::Fstflags {
        p1::Fstflags::from_bits_truncate(flags.bits())
    }
}

impl From<p0::Oflags> for p1::Oflags {
    ghost from_gives = { λ flags result. result ≡ p1_oflags flags };

    fn from(flags: p0::Oflags) -> p1::Oflags {
        p1::Oflags::from_bits_truncate(flags.bits())
    }
}

impl From<p0::Subclockflags> for p1::Subclockflags {
    ghost from_gives = { λ flags result. result ≡ p1_subclockflags flags };

    fn from(flags: p0::Subclockflags) -> p1::Subclockflags {
        p1::Subclockflags::from_bits_truncate(flags.bits())
    }
}
