//! The flags, dispositions and error numbers that the rules speak of.
//!
//! They are this project's own choice: nothing says that they are those of the Windows headers,
//! and a binding to the real system puts its own numbers in their place.

/// How many links one path may lead through.
pub const MAX_SYMLINK_EXPANSIONS: u8 = 63;

// What is asked of a file.
pub const GENERIC_READ: u32 = 0x8000_0000;

pub const GENERIC_WRITE: u32 = 0x4000_0000;

pub const GENERIC_ALL: u32 = 0x1000_0000;

pub const DELETE: u32 = 0x1_0000;

pub const SYNCHRONIZE: u32 = 0x10_0000;

pub const FILE_READ_ATTRIBUTES: u32 = 0x80;

pub const FILE_WRITE_DATA: u32 = 0x2;

pub const FILE_GENERIC_WRITE: u32 = 0x12_0116;

// What others may do to it meanwhile.
pub const FILE_SHARE_READ: u32 = 0x1;

pub const FILE_SHARE_WRITE: u32 = 0x2;

pub const FILE_SHARE_DELETE: u32 = 0x4;

// What to do where it is there, and where it is not: as asked, and as passed on.
pub const CREATE_NEW: u32 = 1;

pub const CREATE_ALWAYS: u32 = 2;

pub const OPEN_EXISTING: u32 = 3;

pub const OPEN_ALWAYS: u32 = 4;

pub const TRUNCATE_EXISTING: u32 = 5;

pub const FILE_OPEN: u32 = 1;

pub const FILE_CREATE: u32 = 2;

pub const FILE_OPEN_IF: u32 = 3;

pub const FILE_OVERWRITE: u32 = 4;

pub const FILE_OVERWRITE_IF: u32 = 5;

// How it is opened, as asked.
pub const FILE_FLAG_WRITE_THROUGH: u32 = 0x8000_0000;

pub const FILE_FLAG_OVERLAPPED: u32 = 0x4000_0000;

pub const FILE_FLAG_NO_BUFFERING: u32 = 0x2000_0000;

pub const FILE_FLAG_RANDOM_ACCESS: u32 = 0x1000_0000;

pub const FILE_FLAG_SEQUENTIAL_SCAN: u32 = 0x800_0000;

pub const FILE_FLAG_DELETE_ON_CLOSE: u32 = 0x400_0000;

pub const FILE_FLAG_BACKUP_SEMANTICS: u32 = 0x200_0000;

pub const FILE_FLAG_POSIX_SEMANTICS: u32 = 0x100_0000;

pub const FILE_FLAG_SESSION_AWARE: u32 = 0x80_0000;

pub const FILE_FLAG_OPEN_REPARSE_POINT: u32 = 0x20_0000;

pub const FILE_FLAG_OPEN_NO_RECALL: u32 = 0x10_0000;

pub const SECURITY_SQOS_PRESENT: u32 = 0x10_0000;

pub const SECURITY_CONTEXT_TRACKING: u32 = 0x4_0000;

pub const SECURITY_EFFECTIVE_ONLY: u32 = 0x8_0000;

// Attributes: the one of a file with no other, and all of them.
pub const FILE_ATTRIBUTE_NORMAL: u32 = 0x80;

pub const FILE_ATTRIBUTE_VALID_FLAGS: u32 = 0x5f_fff7;

// How it is opened, as passed on.
pub const FILE_WRITE_THROUGH: u32 = 0x2;

pub const FILE_SEQUENTIAL_ONLY: u32 = 0x4;

pub const FILE_NO_INTERMEDIATE_BUFFERING: u32 = 0x8;

pub const FILE_SYNCHRONOUS_IO_NONALERT: u32 = 0x20;

pub const FILE_NON_DIRECTORY_FILE: u32 = 0x40;

pub const FILE_OPEN_REMOTE_INSTANCE: u32 = 0x400;

pub const FILE_RANDOM_ACCESS: u32 = 0x800;

pub const FILE_DELETE_ON_CLOSE: u32 = 0x1000;

pub const FILE_OPEN_FOR_BACKUP_INTENT: u32 = 0x4000;

pub const FILE_OPEN_REPARSE_POINT: u32 = 0x20_0000;

pub const FILE_OPEN_NO_RECALL: u32 = 0x40_0000;

pub const OBJ_INHERIT: u32 = 0x2;

pub const OBJ_CASE_INSENSITIVE: u32 = 0x40;

// What a reparse point is, and the flag of a link whose name is relative.
pub const IO_REPARSE_TAG_SYMLINK: u32 = 0xa000_000c;

pub const IO_REPARSE_TAG_MOUNT_POINT: u32 = 0xa000_0003;

pub const SYMLINK_FLAG_RELATIVE: u32 = 0x1;

// Refusals.
pub const ERROR_NOT_SUPPORTED: u32 = 50;

pub const ERROR_INVALID_PARAMETER: u32 = 87;

pub const ERROR_INVALID_NAME: u32 = 123;
