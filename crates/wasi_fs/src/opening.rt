use crate::descriptor::Dir;
use wasi_fs_types::{DescriptorFlags, OpenFlags};

/// How something is opened, and from which directory.
#[derive(Clone, Copy)]
pub(crate) struct Opening {
    pub(crate) from: Dir,
    pub(crate) how: OpenFlags,
    pub(crate) flags: DescriptorFlags,
    pub(crate) blocking: bool,
}
