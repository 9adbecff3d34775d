ghost use Rattle.std.specs.Prelude.{◌≡◌, ◌+◌, ◌≤◌, ℕ, Bool, false, List, length, IfOk, IfErr, IfSome, MatchResult, Ok, Err, slice_range};
ghost use Rattle.wasi_winrules.specs.Numbers.{io_reparse_tag_symlink};
ghost use Rattle.wasi_winrules.specs.Reparse.{u16_at, u32_at, units_in, shown, names_begin, is_relative, name_at, name_in, reparse_error_text};

use crate::flags::has_flag;
use crate::numbers::{IO_REPARSE_TAG_MOUNT_POINT, IO_REPARSE_TAG_SYMLINK, SYMLINK_FLAG_RELATIVE};
use std::alloc::{AllocError, Global};
use std::fmt;

/// Why the data of a reparse point gave no name.
#[derive(Clone, Copy, Debug, PartialEq, Eq, Drop)]
pub enum ReparseError {
    /// The data is cut off, or its name is not within it or not made of whole units.
    Malformed,
    /// The reparse point is neither a link nor a mount point.
    Unsupported,
    OutOfMemory,
}

impl ReparseError {
    fn text(&self) -> &'static str
        ensures { result.now ≡ reparse_error_text self.now }
    {
        match self {
            ReparseError::Malformed => "malformed reparse point data",
            ReparseError::Unsupported => "Unsupported reparse point type",
            ReparseError::OutOfMemory => "out of memory",
        }
    }
}

/// The text as it is, also where a width or a precision is asked for.
impl fmt::Display for ReparseError {
    ghost use Rattle.std.specs.Prelude.{Some};
    ghost use Rattle.wasi_winrules.specs.Reparse.{reparse_error_text};

    ghost output = { λ error. Some (reparse_error_text error) };

    ghost styled_output = { λ error _. Some (reparse_error_text error) };

    fn fmt<W: fmt::Write>(&self, f: &mut fmt::Formatter<W>) -> fmt::Result {
        f.write_str(self.text())
    }
}

impl std::error::Error for ReparseError {}

impl From<AllocError> for ReparseError {
    ghost use Rattle.wasi_winrules.specs.declared.reparse.ReparseError.TheVariants.{OutOfMemory};

    ghost from_gives = { λ _ error. error ≡ OutOfMemory };

    fn from(_: AllocError) -> ReparseError {
        ReparseError::OutOfMemory
    }
}

/// `\??\` in UTF-16, the low byte first.
const NT_PREFIX: [u8; 8] = *b"\\\0?\0?\0\\\0";

fn u16_at(bytes: &[u8], place: usize) -> u16
    requires { place + 2 ≤ length bytes.now }
    ensures { result ≡ u16_at bytes.now place }
{
    u16::from_le_bytes([bytes[place], bytes[place + 1]])
}

fn u32_at(bytes: &[u8], place: usize) -> u32
    requires { place + 4 ≤ length bytes.now }
    ensures { result ≡ u32_at bytes.now place }
{
    u32::from_le_bytes([
        bytes[place],
        bytes[place + 1],
        bytes[place + 2],
        bytes[place + 3],
    ])
}

/// Where the names begin in the data of this tag.
fn names_begin(tag: u32) -> Option<usize>
    ensures place { result ≡ names_begin tag }
    ensures bounds { IfSome result (λ begin. (16 ≤ begin) × (begin ≤ 20)) }
    ensures link { tag ≡ io_reparse_tag_symlink → result ≡ Some 20 }
{
    match tag {
        IO_REPARSE_TAG_SYMLINK => Some(20),
        IO_REPARSE_TAG_MOUNT_POINT => Some(16),
        _ => None,
    }
}

/// The bytes as UTF-16 units, the low byte first.
fn units_in(alloc: Global, bytes: &[u8]) -> Result<Vec<u16>, AllocError>
    ensures { IfOk result (λ units. units.items ≡ units_in bytes.now) }
{
    let mut units = Vec::new(alloc);
    let mut rest = bytes;
    while let Some((pair, more)) = rest.split_first_chunk::<2>() {
        units.push(u16::from_le_bytes(*pair))?;
        rest = more;
    }
    Ok(units)
}

/// The name's bytes without those of the prefix, where they begin with it.
fn without_prefix(name: &[u8]) -> &[u8]
    ensures { units_in result.now ≡ shown false (units_in name.now) }
{
    match name.strip_prefix(NT_PREFIX.as_slice()) {
        Some(rest) => rest,
        None => name,
    }
}

/// Whether the data is that of a link whose name is relative.
fn is_relative(bytes: &[u8]) -> bool
    requires whole { 16 ≤ length bytes.now }
    requires link { u32_at bytes.now 0 ≡ io_reparse_tag_symlink → 20 ≤ length bytes.now }
    ensures { result ≡ is_relative bytes.now }
{
    u32_at(bytes, 0) == IO_REPARSE_TAG_SYMLINK && has_flag(u32_at(bytes, 16), SYMLINK_FLAG_RELATIVE)
}

/// The bytes of the name as it is shown, in data whose names begin here.
fn name_at(bytes: &[u8], begin: usize) -> Result<&[u8], ReparseError>
    requires bounds { (16 ≤ begin) × (begin ≤ 20) }
    requires link { u32_at bytes.now 0 ≡ io_reparse_tag_symlink → begin ≡ 20 }
    ensures { MatchResult result (λ name. name_at (Some begin) bytes.now ≡ Ok (units_in name.now)) (λ error. name_at (Some begin) bytes.now ≡ Err error) }
{
    if bytes.len() < begin {
        return Err(ReparseError::Malformed);
    }
    let start = begin + usize::from(u16_at(bytes, 8));
    let end = start + usize::from(u16_at(bytes, 10));
    if end > bytes.len() || start % 2 != 0 || end % 2 != 0 {
        return Err(ReparseError::Malformed);
    }
    let name = &bytes[start..end];
    if is_relative(bytes) {
        Ok(name)
    } else {
        Ok(without_prefix(name))
    }
}

/// The bytes of the name as it is shown.
fn name_in(bytes: &[u8]) -> Result<&[u8], ReparseError>
    ensures { MatchResult result (λ name. name_in bytes.now ≡ Ok (units_in name.now)) (λ error. name_in bytes.now ≡ Err error) }
{
    if bytes.len() < 8 {
        return Err(ReparseError::Malformed);
    }
    match names_begin(u32_at(bytes, 0)) {
        Some(begin) => name_at(bytes, begin),
        None => Err(ReparseError::Unsupported),
    }
}

/// The name to which a reparse point leads, of the data that the system keeps of it. Numbers stand
/// with their low byte first: the tag in 4 bytes at 0, the name's offset in 2 at 8, its length in
/// bytes in 2 at 10, and the flags of a link in 4 at 16. The offset counts from where names begin,
/// which is 20 in a link and 16 in a mount point. A `\??\` at the front of a name that is not
/// relative is dropped.
///
/// # Errors
///
/// The first of these that holds: `Malformed` for fewer than 8 bytes; `Unsupported` for another
/// tag; `Malformed` for fewer bytes than where names begin, and for a name that ends past the bytes
/// or begins or ends at an odd place. `OutOfMemory` only where there is a name.
pub fn read_reparse(alloc: Global, bytes: &[u8]) -> Result<Vec<u16>, ReparseError>
    ensures name { IfOk (name_in bytes.now) (λ name. MatchResult result (λ units. units.items ≡ name) (λ error. error ≡ ReparseError.OutOfMemory)) }
    ensures refused { IfErr (name_in bytes.now) (λ error. result ≡ Err error) }
{
    let name = name_in(bytes)?;
    let units = units_in(alloc, name)?;
    Ok(units)
}
