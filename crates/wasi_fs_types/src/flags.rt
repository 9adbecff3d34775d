ghost use Rattle.std.specs.Prelude.{⊤};
ghost use Rattle.wasi_fs_types.specs.Flags.{open_flags_table, path_flags_table, descriptor_flags_table, open_mode_table};

use bitflags::{Flag, Flags, bitflag_items};

/// How a path is opened.
#[derive(Clone, Copy, Debug, PartialEq, Eq)]
pub struct OpenFlags(u8);

/// How a path is resolved.
#[derive(Clone, Copy, Debug, PartialEq, Eq)]
pub struct PathFlags(u8);

/// What a descriptor is opened for.
#[derive(Clone, Copy, Debug, PartialEq, Eq)]
pub struct DescriptorFlags(u8);

/// What an open file gives and takes.
#[derive(Clone, Copy, Debug, PartialEq, Eq)]
pub struct OpenMode(u8);

bitflag_items! {
    impl OpenFlags: u8 {
        const CREATE = 1 << 0;
        const DIRECTORY = 1 << 1;
        const EXCLUSIVE = 1 << 2;
        const TRUNCATE = 1 << 3;
    }

    impl PathFlags: u8 {
        const SYMLINK_FOLLOW = 1 << 0;
    }

    impl DescriptorFlags: u8 {
        const READ = 1 << 0;
        const WRITE = 1 << 1;
        const FILE_INTEGRITY_SYNC = 1 << 2;
        const DATA_INTEGRITY_SYNC = 1 << 3;
        const REQUESTED_WRITE_SYNC = 1 << 4;
        const MUTATE_DIRECTORY = 1 << 5;
    }

    impl OpenMode: u8 {
        const READ = 1 << 0;
        const WRITE = 1 << 1;
    }
}

impl Flags for OpenFlags {
    type Bits = u8;

    ghost exact = { ⊤ };

    ghost table = { open_flags_table };

    ghost set_of = { λ flags. flags.0 };

    fn flags<'a>() -> &'a [Flag<OpenFlags>] {
        OpenFlags::FLAGS
    }

    fn bits(&self) -> u8 {
        self.0
    }

    fn from_bits_retain(bits: u8) -> OpenFlags {
        OpenFlags(bits)
    }
}

impl Flags for PathFlags {
    type Bits = u8;

    ghost exact = { ⊤ };

    ghost table = { path_flags_table };

    ghost set_of = { λ flags. flags.0 };

    fn flags<'a>() -> &'a [Flag<PathFlags>] {
        PathFlags::FLAGS
    }

    fn bits(&self) -> u8 {
        self.0
    }

    fn from_bits_retain(bits: u8) -> PathFlags {
        PathFlags(bits)
    }
}

impl Flags for DescriptorFlags {
    type Bits = u8;

    ghost exact = { ⊤ };

    ghost table = { descriptor_flags_table };

    ghost set_of = { λ flags. flags.0 };

    fn flags<'a>() -> &'a [Flag<DescriptorFlags>] {
        DescriptorFlags::FLAGS
    }

    fn bits(&self) -> u8 {
        self.0
    }

    fn from_bits_retain(bits: u8) -> DescriptorFlags {
        DescriptorFlags(bits)
    }
}

impl Flags for OpenMode {
    type Bits = u8;

    ghost exact = { ⊤ };

    ghost table = { open_mode_table };

    ghost set_of = { λ flags. flags.0 };

    fn flags<'a>() -> &'a [Flag<OpenMode>] {
        OpenMode::FLAGS
    }

    fn bits(&self) -> u8 {
        self.0
    }

    fn from_bits_retain(bits: u8) -> OpenMode {
        OpenMode(bits)
    }
}
