//! Types of one preview from those of the other: each name to the same name.

mod flags;
mod records;
