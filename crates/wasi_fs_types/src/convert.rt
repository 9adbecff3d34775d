//! Types of the host from those of WASI 0.3 and back: each name to the same name.

mod enums;
mod flags;
mod records;
