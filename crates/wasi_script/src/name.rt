ghost use Rattle.std.specs.Prelude.{◌≡◌, IfOk};
ghost use Rattle.std.specs.List.{list_all};
ghost use Rattle.wasi_script.specs.Name.{is_name, is_name_byte, name_of};
ghost use Rattle.wasi_script.specs.Reads.{Reads};

use crate::refusal::Refusal;
use std::alloc::Global;
use std::marker::Model;
use wasi_base::OutOfMemory;

/// A stream's name: an ASCII upper-case letter, and then 0 to 31 ASCII letters, digits or `_`.
#[derive(Drop)]
pub struct Name {
    bytes: Vec<u8>,
}

impl Model for Name {
    ghost use Rattle.std.specs.Prelude.{ℕ, List};

    ghost Value = { List ℕ };

    ghost view = { λ name. name.bytes.items };
}

impl Name {
    pub fn as_bytes(&self) -> &[u8]
        ensures { result.now ≡ self.now }
    {
        self.bytes.as_slice()
    }

    /// The same name.
    pub fn copy(&self, alloc: Global) -> Result<Name, OutOfMemory>
        ensures { IfOk result (λ name. name ≡ self.now) }
    {
        let bytes = Vec::from_slice(alloc, self.bytes.as_slice())?;
        Ok(Name { bytes })
    }

    /// The name that a text is. Refused where it is none.
    pub fn new(alloc: Global, text: &[u8]) -> Result<Name, Refusal>
        ensures { Reads result (name_of text.now) }
    {
        if !is_valid(text) {
            return Err(Refusal::Invalid);
        }
        let bytes = Vec::from_slice(alloc, text)?;
        Ok(Name { bytes })
    }
}

fn is_valid(text: &[u8]) -> bool
    ensures { result ≡ is_name text.now }
{
    match text {
        [first, rest @ ..] => first.is_ascii_uppercase()
            && (rest.len() <= 31 && are_name_bytes(rest)),
        [] => false,
    }
}

fn are_name_bytes(text: &[u8]) -> bool
    ensures { result ≡ list_all is_name_byte text.now }
{
    text.iter()
        .all(|byte| byte.is_ascii_alphanumeric() || *byte == b'_')
}
