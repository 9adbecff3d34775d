ghost use Rattle.std.specs.Prelude.{◌≡◌, IfOk, cond, Some, None, length, string_bytes};
ghost use Rattle.std.specs.Str.{is_utf8};

use crate::OutOfMemory;
use std::alloc::Global;
use std::marker::Model;

/// A text of its own. Contracts see its bytes, which are UTF-8.
#[derive(Debug, Drop)]
pub struct Text {
    kept: String,
}

impl Model for Text {
    ghost use Rattle.std.specs.Prelude.{ℕ, List, string_bytes};

    ghost Value = { List ℕ };

    ghost view = { λ text. string_bytes text.kept };
}

impl Text {
    pub fn new(text: String) -> Text
        ensures { result ≡ string_bytes text }
    {
        Text { kept: text }
    }

    /// A copy of this text.
    pub fn from_str(alloc: Global, text: &str) -> Result<Text, OutOfMemory>
        ensures { IfOk result (λ copy. copy ≡ text.now) }
    {
        let kept = String::from_str(alloc, text)?;
        Ok(Text { kept })
    }

    /// The text of these bytes, where they are UTF-8.
    pub fn from_utf8(bytes: Vec<u8>) -> Option<Text>
        ensures { result ≡ cond (is_utf8 bytes.items) (Some bytes.items) None }
    {
        match String::from_utf8(bytes) {
            Ok(kept) => Some(Text { kept }),
            Err(_) => None,
        }
    }

    pub fn as_str(&self) -> &str
        ensures { result.now ≡ self.now }
    {
        self.kept.as_str()
    }

    /// How many bytes there are.
    pub fn len(&self) -> usize
        ensures { result ≡ length self.now }
    {
        self.kept.len()
    }

    pub fn into_string(self) -> String
        ensures { string_bytes result ≡ self }
    {
        self.kept
    }
}
