ghost use Rattle.std.specs.Prelude.{Some};
ghost use Rattle.wasi_table.specs.TableError.{table_error_text};

use std::fmt;
use wasi_base::{TrapText, Trapped};

/// Why a table refuses a call. `Display` prints the text of the trap.
#[derive(Clone, Copy, Debug, PartialEq, Eq, Drop)]
pub enum TableError {
    /// No entry has this number.
    NotPresent,
    /// The entry is of another kind.
    WrongType,
    /// Entries live whose parent this one is.
    HasChildren,
    /// As many entries live as the capacity.
    Full,
    OutOfMemory,
}

impl fmt::Display for TableError {
    ghost output = { λ error. Some (table_error_text error) };

    fn fmt<W: fmt::Write>(&self, f: &mut fmt::Formatter<W>) -> fmt::Result {
        match *self {
            TableError::NotPresent => TrapText::ResourceNotPresent.fmt(f),
            TableError::WrongType => TrapText::ResourceWrongType.fmt(f),
            TableError::HasChildren => TrapText::ResourceHasChildren.fmt(f),
            TableError::Full => TrapText::ResourceTableFull.fmt(f),
            TableError::OutOfMemory => write!(f, "out of memory"),
        }
    }
}

impl std::error::Error for TableError {}

impl From<TableError> for Trapped {
    ghost use Rattle.std.specs.Prelude.{◌≡◌};
    ghost use Rattle.wasi_table.specs.TableError.{trapped_by};

    ghost from_gives = { λ error result. result ≡ trapped_by error };

    fn from(error: TableError) -> Trapped {
        match error {
            TableError::NotPresent => Trapped::Trap(TrapText::ResourceNotPresent),
            TableError::WrongType => Trapped::Trap(TrapText::ResourceWrongType),
            TableError::HasChildren => Trapped::Trap(TrapText::ResourceHasChildren),
            TableError::Full => Trapped::Trap(TrapText::ResourceTableFull),
            TableError::OutOfMemory => Trapped::OutOfMemory,
        }
    }
}
