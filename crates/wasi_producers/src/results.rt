ghost use Rattle.std.specs.Prelude.{◌≡◌};
ghost use Rattle.wasi_producers.specs.Codes.{cli_code_name};

use bytes::Bytes;
use std::fmt;
use wasi_base::IoKind;

/// How a poll of a stream ended.
#[derive(Clone, Copy, Debug, PartialEq, Eq, Drop)]
pub enum StreamResult {
    /// It is done, and the stream stays open.
    Completed,
    /// The stream ended, with this poll or before it.
    Dropped,
    /// The poll was to finish, and nothing stood that it could finish with.
    Cancelled,
    /// Nothing yet. The next poll goes on.
    Pending,
}

/// Why a standard stream ended with an error. `Display` prints the word that a reply shows.
#[derive(Clone, Copy, Debug, PartialEq, Eq, Drop)]
pub enum CliErrorCode {
    Io,
    IllegalByteSequence,
    Pipe,
}

/// What one poll of a producer answers.
#[derive(Drop)]
pub struct Produced {
    pub result: StreamResult,
    /// The bytes that it hands out.
    pub bytes: Bytes,
}

/// What one poll of a consumer answers.
#[derive(Clone, Copy, Debug, PartialEq, Eq, Drop)]
pub struct Consumed {
    pub result: StreamResult,
    /// How many bytes it took.
    pub taken: u64,
}

impl CliErrorCode {
    /// The code's word in replies.
    pub fn name(&self) -> &str
        ensures { result.now ≡ cli_code_name self.now }
    {
        match *self {
            CliErrorCode::Io => "io",
            CliErrorCode::IllegalByteSequence => "illegal-byte-sequence",
            CliErrorCode::Pipe => "pipe",
        }
    }
}

impl fmt::Display for CliErrorCode {
    ghost use Rattle.std.specs.Prelude.{Some};
    ghost use Rattle.wasi_producers.specs.Codes.{cli_code_name};

    ghost output = { λ code. Some (cli_code_name code) };

    ghost styled_output = { λ code _. Some (cli_code_name code) };

    fn fmt<W: fmt::Write>(&self, f: &mut fmt::Formatter<W>) -> fmt::Result {
        f.write_str(self.name())
    }
}

impl std::error::Error for CliErrorCode {}

/// `Pipe` for a broken pipe, and `Io` for every other fault.
impl From<IoKind> for CliErrorCode {
    ghost use Rattle.std.specs.Prelude.{◌≡◌};
    ghost use Rattle.wasi_producers.specs.Codes.{cli_code};

    ghost from_gives = { λ kind code. code ≡ cli_code kind };

    fn from(kind: IoKind) -> CliErrorCode {
        match kind {
            IoKind::BrokenPipe => CliErrorCode::Pipe,
            IoKind::NotFound
            | IoKind::PermissionDenied
            | IoKind::IsADirectory
            | IoKind::WriteZero
            | IoKind::Interrupted
            | IoKind::InvalidData
            | IoKind::Other => CliErrorCode::Io,
        }
    }
}
