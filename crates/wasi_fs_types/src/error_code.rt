ghost use Rattle.std.specs.Prelude.{◌≡◌};
ghost use Rattle.wasi_fs_types.specs.ErrorCode.{code_name};

use std::fmt;
use wasi_base::{IoKind, TrappableError};

/// Why a call of the filesystem is refused. `Display` prints the word that a reply shows.
#[derive(Clone, Copy, Debug, PartialEq, Eq, Drop)]
pub enum ErrorCode {
    Access,
    Already,
    BadDescriptor,
    Busy,
    Exist,
    FileTooLarge,
    IllegalByteSequence,
    InProgress,
    Interrupted,
    Invalid,
    Io,
    IsDirectory,
    Loop,
    TooManyLinks,
    NameTooLong,
    NoEntry,
    InsufficientMemory,
    InsufficientSpace,
    NotDirectory,
    NotEmpty,
    Unsupported,
    Overflow,
    NotPermitted,
    Pipe,
    InvalidSeek,
}

/// A refusal that the guest is told, a trap, or out of memory.
pub type FilesystemError = TrappableError<ErrorCode>;

pub type FilesystemResult<T> = Result<T, FilesystemError>;

impl ErrorCode {
    /// The code's word in replies: its name in lower case, with `-` between its words.
    pub fn name(&self) -> &str
        ensures { result.now ≡ code_name self.now }
    {
        match *self {
            ErrorCode::Access => "access",
            ErrorCode::Already => "already",
            ErrorCode::BadDescriptor => "bad-descriptor",
            ErrorCode::Busy => "busy",
            ErrorCode::Exist => "exist",
            ErrorCode::FileTooLarge => "file-too-large",
            ErrorCode::IllegalByteSequence => "illegal-byte-sequence",
            ErrorCode::InProgress => "in-progress",
            ErrorCode::Interrupted => "interrupted",
            ErrorCode::Invalid => "invalid",
            ErrorCode::Io => "io",
            ErrorCode::IsDirectory => "is-directory",
            ErrorCode::Loop => "loop",
            ErrorCode::TooManyLinks => "too-many-links",
            ErrorCode::NameTooLong => "name-too-long",
            ErrorCode::NoEntry => "no-entry",
            ErrorCode::InsufficientMemory => "insufficient-memory",
            ErrorCode::InsufficientSpace => "insufficient-space",
            ErrorCode::NotDirectory => "not-directory",
            ErrorCode::NotEmpty => "not-empty",
            ErrorCode::Unsupported => "unsupported",
            ErrorCode::Overflow => "overflow",
            ErrorCode::NotPermitted => "not-permitted",
            ErrorCode::Pipe => "pipe",
            ErrorCode::InvalidSeek => "invalid-seek",
        }
    }
}

impl fmt::Display for ErrorCode {
    ghost use Rattle.std.specs.Prelude.{Some};
    ghost use Rattle.wasi_fs_types.specs.ErrorCode.{code_name};

    ghost output = { λ code. Some (code_name code) };

    ghost styled_output = { λ code _. Some (code_name code) };

    fn fmt<W: fmt::Write>(&self, f: &mut fmt::Formatter<W>) -> fmt::Result {
        f.write_str(self.name())
    }
}

impl std::error::Error for ErrorCode {}

/// The code of a planned fault. Kinds that have no code of their own are Io.
impl From<IoKind> for ErrorCode {
    ghost use Rattle.std.specs.Prelude.{◌≡◌};
    ghost use Rattle.wasi_fs_types.specs.ErrorCode.{code_of_kind};

    ghost from_gives = { λ kind result. result ≡ code_of_kind kind };

    fn from(kind: IoKind) -> ErrorCode {
        match kind {
            IoKind::BrokenPipe => ErrorCode::Pipe,
            IoKind::NotFound => ErrorCode::NoEntry,
            IoKind::PermissionDenied => ErrorCode::Access,
            IoKind::IsADirectory => ErrorCode::IsDirectory,
            IoKind::Interrupted => ErrorCode::Interrupted,
            IoKind::WriteZero | IoKind::InvalidData | IoKind::Other => ErrorCode::Io,
        }
    }
}
