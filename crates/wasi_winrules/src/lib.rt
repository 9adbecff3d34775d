//! What a host on Windows asks of a path, and the words with which it opens a file there, as pure
//! rules: no call of this crate reaches the system, and only `read_reparse` takes memory.
//!
//! A path is a slice of UTF-16 units. The numbers of `numbers` are this project's own choice.
#![tactic(auto)]

mod access;
mod creation;
mod device;
mod flags;
pub mod numbers;
mod options;
mod path;
mod plan;
mod reparse;
#[cfg(test)]
mod tests;

pub use access::get_access_mode;
pub use creation::get_creation_mode;
pub use device::is_reserved_device;
pub use numbers::MAX_SYMLINK_EXPANSIONS;
pub use options::{
    FollowSymlinks, OpenOptions, dir_options, get_flags_and_attributes, maybe_dir,
    prepare_open_options_for_open,
};
pub use path::{
    path_has_trailing_dot, path_has_trailing_slash, path_really_has_trailing_dot,
    path_requires_dir, strip_dir_suffix,
};
pub use plan::{CreatePlan, Qos, create_file_at_plan};
pub use reparse::{ReparseError, read_reparse};
