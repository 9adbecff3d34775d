ghost use Rattle.std.specs.Prelude.{◌≡◌};
ghost use Rattle.wasi_winrules.specs.Options.{new_options, options_for_directories, flags_and_attributes_of, truncates_after_opening, flags_to_open, share_mode_to_open, prepared, with_maybe_dir};

use crate::flags::flag_if;
use crate::numbers::{
    FILE_FLAG_BACKUP_SEMANTICS, FILE_FLAG_OPEN_REPARSE_POINT, FILE_FLAG_WRITE_THROUGH,
    FILE_SHARE_DELETE, FILE_SHARE_READ, FILE_SHARE_WRITE,
};

/// Whether a link at the end of the path is followed.
#[derive(Clone, Copy, Debug, PartialEq, Eq)]
pub enum FollowSymlinks {
    Yes,
    No,
}

/// How a file is to be opened.
#[derive(Clone, Copy, Debug, PartialEq, Eq)]
pub struct OpenOptions {
    pub read: bool,
    pub write: bool,
    /// Every write goes to the file's end.
    pub append: bool,
    /// A file that is there is emptied.
    pub truncate: bool,
    /// A file that isn't there is made.
    pub create: bool,
    /// The file is made, and is not there before.
    pub create_new: bool,
    /// Only a directory will do.
    pub dir_required: bool,
    /// A directory will do too.
    pub maybe_dir: bool,
    /// Writes reach the disk, data and metadata.
    pub sync: bool,
    /// Writes reach the disk, data alone.
    pub dsync: bool,
    pub follow: FollowSymlinks,
    /// The access asked for in place of what `read`, `write` and `append` ask.
    pub access_mode: Option<u32>,
    /// What others may do to the file meanwhile: `FILE_SHARE_` flags.
    pub share_mode: u32,
    /// `FILE_FLAG_` flags.
    pub custom_flags: u32,
    /// Attributes of a file that is made.
    pub attributes: u32,
    /// `SECURITY_` flags.
    pub security_qos_flags: u32,
}

impl OpenOptions {
    /// Nothing is asked, links are followed, and others may do anything.
    pub fn new() -> OpenOptions
        ensures { result ≡ new_options }
    {
        OpenOptions {
            read: false,
            write: false,
            append: false,
            truncate: false,
            create: false,
            create_new: false,
            dir_required: false,
            maybe_dir: false,
            sync: false,
            dsync: false,
            follow: FollowSymlinks::Yes,
            access_mode: None,
            share_mode: FILE_SHARE_READ | FILE_SHARE_WRITE | FILE_SHARE_DELETE,
            custom_flags: 0,
            attributes: 0,
            security_qos_flags: 0,
        }
    }
}

/// The options that open a directory. Others may neither rename nor delete it meanwhile.
pub fn dir_options() -> OpenOptions
    ensures { result ≡ options_for_directories }
{
    OpenOptions {
        read: true,
        dir_required: true,
        custom_flags: FILE_FLAG_BACKUP_SEMANTICS,
        share_mode: FILE_SHARE_READ | FILE_SHARE_WRITE,
        ..OpenOptions::new()
    }
}

/// The flags, attributes and security flags as one word. What makes a new file opens a link itself.
pub fn get_flags_and_attributes(options: &OpenOptions) -> u32
    ensures { result ≡ flags_and_attributes_of options.now }
{
    options.custom_flags
        | options.attributes
        | options.security_qos_flags
        | flag_if(options.create_new, FILE_FLAG_OPEN_REPARSE_POINT)
}

/// Readies options whose every flag is set for the call that opens. True where the file has to be
/// emptied once it is open, since emptying it at the opening would turn a link into a file.
pub fn prepare_open_options_for_open(options: &mut OpenOptions) -> bool
    ensures answer { result ≡ truncates_after_opening options.old }
    ensures options { options.new ≡ prepared options.old }
{
    let by_hand = truncates_by_hand(options);
    if by_hand {
        options.truncate = false;
    }
    options.custom_flags = flags_to_open(options);
    options.share_mode = share_mode_to_open(options);
    by_hand
}

/// Emptying a link's path would put a file in the link's place.
fn truncates_by_hand(options: &OpenOptions) -> bool
    ensures { result ≡ truncates_after_opening options.now }
{
    options.follow == FollowSymlinks::No
        && options.write
        && options.truncate
        && !options.append
        && !options.create_new
}

fn flags_to_open(options: &OpenOptions) -> u32
    ensures { result ≡ flags_to_open options.now }
{
    let opens_link = options.follow == FollowSymlinks::No;
    let writes_through = options.sync || options.dsync;
    options.custom_flags
        | flag_if(opens_link, FILE_FLAG_OPEN_REPARSE_POINT)
        | flag_if(options.maybe_dir, FILE_FLAG_BACKUP_SEMANTICS)
        | flag_if(writes_through, FILE_FLAG_WRITE_THROUGH)
}

fn share_mode_to_open(options: &OpenOptions) -> u32
    ensures { result ≡ share_mode_to_open options.now }
{
    if options.maybe_dir {
        options.share_mode & !FILE_SHARE_DELETE
    } else {
        options.share_mode
    }
}

/// Lets a directory be opened too, and keeps it from being renamed or deleted meanwhile.
pub fn maybe_dir(options: &mut OpenOptions)
    ensures { options.new ≡ with_maybe_dir options.old }
{
    options.custom_flags = FILE_FLAG_BACKUP_SEMANTICS;
    options.share_mode = FILE_SHARE_READ | FILE_SHARE_WRITE;
}
