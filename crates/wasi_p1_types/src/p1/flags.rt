ghost use Rattle.std.specs.Prelude.{⊤};
ghost use Rattle.wasi_p1_types.specs.Flags.{fdflags_table, rights_table, lookupflags_table, fstflags_table, oflags_table, subclockflags_table};

use bitflags::{Flag, Flags, bitflag_items};

/// How a descriptor's reads and writes behave.
#[derive(Clone, Copy, Debug, PartialEq, Eq)]
pub struct Fdflags(u16);

/// What may be done with a descriptor.
#[derive(Clone, Copy, Debug, PartialEq, Eq)]
pub struct Rights(u64);

/// How a path is resolved.
#[derive(Clone, Copy, Debug, PartialEq, Eq)]
pub struct Lookupflags(u32);

/// Which times a call sets, and whether to now.
#[derive(Clone, Copy, Debug, PartialEq, Eq)]
pub struct Fstflags(u16);

/// How a path is opened.
#[derive(Clone, Copy, Debug, PartialEq, Eq)]
pub struct Oflags(u16);

/// Whether a timeout is a point in time.
#[derive(Clone, Copy, Debug, PartialEq, Eq)]
pub struct Subclockflags(u16);

bitflag_items! {
    impl Fdflags: u16 {
        const APPEND = 1 << 0;
        const DSYNC = 1 << 1;
        const NONBLOCK = 1 << 2;
        const RSYNC = 1 << 3;
        const SYNC = 1 << 4;
    }

    impl Rights: u64 {
        const FD_DATASYNC = 1 << 0;
        const FD_READ = 1 << 1;
        const FD_SEEK = 1 << 2;
        const FD_FDSTAT_SET_FLAGS = 1 << 3;
        const FD_SYNC = 1 << 4;
        const FD_TELL = 1 << 5;
        const FD_WRITE = 1 << 6;
        const FD_ADVISE = 1 << 7;
        const FD_ALLOCATE = 1 << 8;
        const PATH_CREATE_DIRECTORY = 1 << 9;
        const PATH_CREATE_FILE = 1 << 10;
        const PATH_LINK_SOURCE = 1 << 11;
        const PATH_LINK_TARGET = 1 << 12;
        const PATH_OPEN = 1 << 13;
        const FD_READDIR = 1 << 14;
        const PATH_READLINK = 1 << 15;
        const PATH_RENAME_SOURCE = 1 << 16;
        const PATH_RENAME_TARGET = 1 << 17;
        const PATH_FILESTAT_GET = 1 << 18;
        const PATH_FILESTAT_SET_SIZE = 1 << 19;
        const PATH_FILESTAT_SET_TIMES = 1 << 20;
        const FD_FILESTAT_GET = 1 << 21;
        const FD_FILESTAT_SET_SIZE = 1 << 22;
        const FD_FILESTAT_SET_TIMES = 1 << 23;
        const PATH_SYMLINK = 1 << 24;
        const PATH_REMOVE_DIRECTORY = 1 << 25;
        const PATH_UNLINK_FILE = 1 << 26;
        const POLL_FD_READWRITE = 1 << 27;
        const SOCK_SHUTDOWN = 1 << 28;
    }

    impl Lookupflags: u32 {
        const SYMLINK_FOLLOW = 1 << 0;
    }

    impl Fstflags: u16 {
        const ATIM = 1 << 0;
        const ATIM_NOW = 1 << 1;
        const MTIM = 1 << 2;
        const MTIM_NOW = 1 << 3;
    }

    impl Oflags: u16 {
        const CREAT = 1 << 0;
        const DIRECTORY = 1 << 1;
        const EXCL = 1 << 2;
        const TRUNC = 1 << 3;
    }

    impl Subclockflags: u16 {
        const SUBSCRIPTION_CLOCK_ABSTIME = 1 << 0;
    }
}

impl Flags for Fdflags {
    type Bits = u16;

    ghost exact = { ⊤ };

    ghost table = { fdflags_table };

    ghost set_of = { λ flags. flags.0 };

    fn flags<'a>() -> &'a [Flag<Fdflags>] {
        Fdflags::FLAGS
    }

    fn bits(&self) -> u16 {
        self.0
    }

    fn from_bits_retain(bits: u16) -> Fdflags {
        Fdflags(bits)
    }
}

impl Flags for Rights {
    type Bits = u64;

    ghost exact = { ⊤ };

    ghost table = { rights_table };

    ghost set_of = { λ flags. flags.0 };

    fn flags<'a>() -> &'a [Flag<Rights>] {
        Rights::FLAGS
    }

    fn bits(&self) -> u64 {
        self.0
    }

    fn from_bits_retain(bits: u64) -> Rights {
        Rights(bits)
    }
}

impl Flags for Lookupflags {
    type Bits = u32;

    ghost exact = { ⊤ };

    ghost table = { lookupflags_table };

    ghost set_of = { λ flags. flags.0 };

    fn flags<'a>() -> &'a [Flag<Lookupflags>] {
        Lookupflags::FLAGS
    }

    fn bits(&self) -> u32 {
        self.0
    }

    fn from_bits_retain(bits: u32) -> Lookupflags {
        Lookupflags(bits)
    }
}

impl Flags for Fstflags {
    type Bits = u16;

    ghost exact = { ⊤ };

    ghost table = { fstflags_table };

    ghost set_of = { λ flags. flags.0 };

    fn flags<'a>() -> &'a [Flag<Fstflags>] {
        Fstflags::FLAGS
    }

    fn bits(&self) -> u16 {
        self.0
    }

    fn from_bits_retain(bits: u16) -> Fstflags {
        Fstflags(bits)
    }
}

impl Flags for Oflags {
    type Bits = u16;

    ghost exact = { ⊤ };

    ghost table = { oflags_table };

    ghost set_of = { λ flags. flags.0 };

    fn flags<'a>() -> &'a [Flag<Oflags>] {
        Oflags::FLAGS
    }

    fn bits(&self) -> u16 {
        self.0
    }

    fn from_bits_retain(bits: u16) -> Oflags {
        Oflags(bits)
    }
}

impl Flags for Subclockflags {
    type Bits = u16;

    ghost exact = { ⊤ };

    ghost table = { subclockflags_table };

    ghost set_of = { λ flags. flags.0 };

    fn flags<'a>() -> &'a [Flag<Subclockflags>] {
        Subclockflags::FLAGS
    }

    fn bits(&self) -> u16 {
        self.0
    }

    fn from_bits_retain(bits: u16) -> Subclockflags {
        Subclockflags(bits)
    }
}
