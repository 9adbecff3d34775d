//! The worked rows, and each call once.

mod devices;
mod opening;
mod paths;
mod reparse;

use std::alloc::{AllocError, Global};

/// The text's UTF-16 units.
fn wide(alloc: Global, text: &str) -> Result<Vec<u16>, AllocError> {
    text.encode_utf16().collect(alloc)
}
