ghost use Rattle.std.specs.Prelude.{◌≡◌};
ghost use Rattle.wasi_fs.specs.Flags.{follows, may_write};

use bitflags::Flags;
use wasi_fs_types::{OpenMode, PathFlags};

/// Whether a link is to be followed.
pub(crate) fn follows(flags: PathFlags) -> bool
    ensures { result ≡ follows flags }
{
    flags.contains(PathFlags::SYMLINK_FOLLOW)
}

/// Whether a file takes bytes.
pub(crate) fn may_write(mode: OpenMode) -> bool
    ensures { result ≡ may_write mode }
{
    mode.contains(OpenMode::WRITE)
}
