ghost use Rattle.std.specs.Prelude.{◌≡◌, length, IfOk};
ghost use Rattle.wasi_script.specs.Bytes.{hex_of, byte_of, plain_bytes_of, repeated_of, byte_string_of, declared_bytes_of, declared_bytes, text_of};
ghost use Rattle.wasi_script.specs.Reads.{Reads, ReadsItems};

use crate::numbers::parse_count;
use crate::refusal::Refusal;
use hex::{FromHex, FromHexError};
use std::alloc::Global;
use std::marker::Model;
use wasi_base::{OutOfMemory, Text};
use wasi_words::{Parts, is, only};

/// Bytes of a script's field. Contracts see them as a list.
#[derive(Drop)]
pub struct ByteString {
    kept: Kept,
}

#[derive(Drop)]
enum Kept {
    Listed(Vec<u8>),
    Repeated { count: u32, byte: u8 },
}

impl Model for ByteString {
    ghost use Rattle.std.specs.Prelude.{ℕ, List};
    ghost use Rattle.wasi_script.specs.Kept.{kept_bytes};

    ghost Value = { List ℕ };

    ghost view = { λ bytes. kept_bytes bytes.kept };
}

impl ByteString {
    /// These bytes.
    pub fn from_vec(bytes: Vec<u8>) -> ByteString
        ensures { result ≡ bytes.items }
    {
        ByteString {
            kept: Kept::Listed(bytes),
        }
    }

    /// The bytes of a declared input. Refused where they are more than 1048576.
    pub fn declared_from_vec(bytes: Vec<u8>) -> Option<ByteString>
        ensures { result ≡ declared_bytes bytes.items }
    {
        ByteString::from_vec(bytes).declared()
    }

    /// How many bytes there are.
    pub fn len(&self) -> u64
        ensures { result ≡ length self.now }
    {
        match &self.kept {
            Kept::Listed(bytes) => bytes.len() as u64,
            Kept::Repeated { count, byte: _ } => *count as u64,
        }
    }

    /// The bytes, each for itself.
    pub fn to_vec(&self, alloc: Global) -> Result<Vec<u8>, OutOfMemory>
        ensures { IfOk result (λ bytes. bytes.items ≡ self.now) }
    {
        match &self.kept {
            Kept::Listed(bytes) => {
                let bytes = Vec::from_slice(alloc, bytes.as_slice())?;
                Ok(bytes)
            }
            Kept::Repeated { count, byte } => {
                let bytes = vec![in alloc; *byte; *count as usize]?;
                Ok(bytes)
            }
        }
    }

    /// The bytes that a text stands for: `-`, hexadecimal digits, or `K*HH`.
    pub(crate) fn read(alloc: Global, text: &[u8]) -> Result<ByteString, Refusal>
        ensures { Reads result (byte_string_of text.now) }
    {
        if is(text, b"-") {
            return Ok(ByteString::from_vec(Vec::new(alloc)));
        }
        match ByteString::repeated(Parts::new(text, b'*')) {
            Some(bytes) => Ok(bytes),
            None => Ok(ByteString::from_vec(read_digits(alloc, text)?)),
        }
    }

    /// The same, where they are at most 1048576.
    pub(crate) fn read_declared(alloc: Global, text: &[u8]) -> Result<ByteString, Refusal>
        ensures { Reads result (declared_bytes_of text.now) }
    {
        let bytes = ByteString::read(alloc, text)?;
        bytes.declared().ok_or(Refusal::Invalid)
    }

    // the same bytes, where a declared input may have them
    fn declared(self) -> Option<ByteString>
        ensures { result ≡ declared_bytes self }
    {
        if self.len() <= 1048576 {
            Some(self)
        } else {
            None
        }
    }

    // `K*HH`, by its parts: K times the byte HH
    fn repeated(mut parts: Parts) -> Option<ByteString>
        ensures { result ≡ repeated_of parts.entry }
    {
        let count = parse_count(parts.next()?)?;
        let byte = parse_byte(only(parts)?)?;
        Some(ByteString {
            kept: Kept::Repeated { count, byte },
        })
    }
}

/// The bytes that a text stands for without the form `K*HH`: `-`, or hexadecimal digits.
pub fn read_plain_bytes(alloc: Global, text: &[u8]) -> Result<Vec<u8>, Refusal>
    ensures { ReadsItems result (plain_bytes_of text.now) }
{
    if is(text, b"-") {
        Ok(Vec::new(alloc))
    } else {
        read_digits(alloc, text)
    }
}

/// The text that a field stands for: `-` for an empty one, or hexadecimal digits. Refused where its
/// bytes are not UTF-8.
pub(crate) fn read_text(alloc: Global, field: &[u8]) -> Result<Text, Refusal>
    ensures { Reads result (text_of field.now) }
{
    let bytes = read_plain_bytes(alloc, field)?;
    Text::from_utf8(bytes).ok_or(Refusal::Invalid)
}

// one byte at least, in hexadecimal
fn read_digits(alloc: Global, text: &[u8]) -> Result<Vec<u8>, Refusal>
    ensures { ReadsItems result (hex_of text.now) }
{
    if text.is_empty() {
        return Err(Refusal::Invalid);
    }
    match hex::decode(alloc, text) {
        Ok(bytes) => Ok(bytes),
        Err(FromHexError::OutOfMemory) => Err(Refusal::OutOfMemory),
        Err(_) => Err(Refusal::Invalid),
    }
}

// two hexadecimal digits
fn parse_byte(text: &[u8]) -> Option<u8>
    ensures { result ≡ byte_of text.now }
{
    match <[u8; 1] as FromHex>::from_hex(text) {
        Ok(bytes) => Some(bytes[0]),
        Err(_) => None,
    }
}
