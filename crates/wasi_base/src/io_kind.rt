ghost use Rattle.std.specs.Prelude.{◌≡◌};
ghost use Rattle.wasi_base.specs.IoKind.{kind_name, kind_named, kind_from};

use std::io;

/// The kinds of fault that a source or a sink tells, by the names of std's `io::ErrorKind`.
#[derive(Clone, Copy, Debug, PartialEq, Eq, Drop)]
pub enum IoKind {
    BrokenPipe,
    NotFound,
    PermissionDenied,
    IsADirectory,
    WriteZero,
    Interrupted,
    InvalidData,
    Other,
}

impl IoKind {
    /// The kind's word in scripts and replies: its name in lower case, with nothing between.
    pub fn name(&self) -> &str
        ensures { result.now ≡ kind_name self.now }
    {
        match *self {
            IoKind::BrokenPipe => "brokenpipe",
            IoKind::NotFound => "notfound",
            IoKind::PermissionDenied => "permissiondenied",
            IoKind::IsADirectory => "isadirectory",
            IoKind::WriteZero => "writezero",
            IoKind::Interrupted => "interrupted",
            IoKind::InvalidData => "invaliddata",
            IoKind::Other => "other",
        }
    }

    /// The kind of this name; `None` exactly for other bytes.
    pub fn of_name(name: &[u8]) -> Option<IoKind>
        ensures { result ≡ kind_named name.now }
    {
        for kind in KINDS {
            if name == kind.name().as_bytes() {
                return Some(kind);
            }
        }
        None
    }
}

/// The system's kinds by their own names; every kind without one here is `Other`.
impl From<io::ErrorKind> for IoKind {
    ghost from_gives = { λ kind result. result ≡ kind_from kind };

    fn from(kind: io::ErrorKind) -> IoKind {
        match kind {
            io::ErrorKind::BrokenPipe => IoKind::BrokenPipe,
            io::ErrorKind::NotFound => IoKind::NotFound,
            io::ErrorKind::PermissionDenied => IoKind::PermissionDenied,
            io::ErrorKind::IsADirectory => IoKind::IsADirectory,
            io::ErrorKind::WriteZero => IoKind::WriteZero,
            io::ErrorKind::Interrupted => IoKind::Interrupted,
            io::ErrorKind::InvalidData => IoKind::InvalidData,
            _ => IoKind::Other,
        }
    }
}

const KINDS: [IoKind; 8] = [
    IoKind::BrokenPipe,
    IoKind::NotFound,
    IoKind::PermissionDenied,
    IoKind::IsADirectory,
    IoKind::WriteZero,
    IoKind::Interrupted,
    IoKind::InvalidData,
    IoKind::Other,
];
