ghost use Rattle.std.specs.Prelude.{◌≡◌, ◌↔◌, ℕ, ◌+◌, ◌<◌, ◌==◌, ◌||◌, codes, Bool, true, false, IsTrue, MatchOption, slice_index, length, List, position};
ghost use Rattle.std.specs.List.{AllWithin, list_any};
ghost use Rattle.std.specs.Char.{is_whitespace, to_ascii_uppercase};
ghost use Rattle.std.specs.Option.{option_copied};
ghost use Rattle.std.specs.Str.{bytes_eq, drop_trailing_whitespace, str_to_ascii_uppercase};
ghost use Rattle.wasi_winrules.specs.Paths.{is_separator};
ghost use Rattle.wasi_winrules.specs.Devices.{is_component, last_component, stem, is_dot, plain_devices, port_devices, port_numbers, is_device, is_reserved};

use crate::path::{DOT, is_separator};

/// The place of the last separator.
fn last_separator(path: &[u16]) -> Option<usize>
    ensures { MatchOption result (AllWithin (λ unit. is_separator unit ≡ false) path.now 0 (length path.now)) (λ last. (last < length path.now) × (is_separator (slice_index path.now last) ≡ true) × AllWithin (λ unit. is_separator unit ≡ false) path.now (last + 1) (length path.now)) }
{
    path.iter().rposition(|unit| is_separator(*unit))
}

/// Whether the part between two separators counts: it is neither empty nor `.`.
fn is_component(part: &[u16]) -> bool
    ensures { result ≡ is_component part.now }
{
    !(part.is_empty() || part == [DOT].as_slice())
}

fn last_component(path: &[u16]) -> Option<&[u16]>
    ensures { option_copied result ≡ last_component path.now }
{
    let mut rest = path;
    while let Some(place) = last_separator(rest) {
        let part = &rest[place + 1..];
        if is_component(part) {
            return Some(part);
        }
        rest = &rest[..place];
    }
    if is_component(rest) { Some(rest) } else { None }
}

fn first_dot(units: &[u16]) -> Option<usize>
    ensures { result ≡ position is_dot units.now }
{
    units.iter().position(|unit| *unit == DOT)
}

/// What stands before the first dot after the first unit, or all of it.
fn stem(component: &[u16]) -> &[u16]
    ensures { result.now ≡ stem component.now }
{
    let Some((_, rest)) = component.split_first() else {
        return component;
    };
    match first_dot(rest) {
        Some(place) => &component[..place + 1],
        None => component,
    }
}

fn is_white_space(unit: u16) -> bool
    ensures { result ≡ is_whitespace unit }
{
    match char::from_u32(u32::from(unit)) {
        Some(character) => character.is_whitespace(),
        None => false,
    }
}

/// The place of the last unit that is no white space.
fn last_dark(name: &[u16]) -> Option<usize>
    ensures { MatchOption result (AllWithin (λ unit. is_whitespace unit ≡ true) name.now 0 (length name.now)) (λ last. (last < length name.now) × (is_whitespace (slice_index name.now last) ≡ false) × AllWithin (λ unit. is_whitespace unit ≡ true) name.now (last + 1) (length name.now)) }
{
    name.iter().rposition(|unit| !is_white_space(*unit))
}

/// The name without the white space at its end.
fn trim_end(name: &[u16]) -> &[u16]
    ensures { result.now ≡ drop_trailing_whitespace name.now }
{
    match last_dark(name) {
        Some(last) => &name[..last + 1],
        None => &name[..0],
    }
}

fn to_ascii_uppercase(unit: u16) -> u16
    ensures { result ≡ to_ascii_uppercase unit }
{
    match u8::try_from(unit) {
        Ok(byte) => u16::from(byte.to_ascii_uppercase()),
        Err(_) => unit,
    }
}

/// Whether each unit is the letter at its place, up to the end of one of the two.
fn agrees(units: &[u16], word: &[u8]) -> bool
    ensures { IsTrue result ↔ ((k : ℕ) → k < length units.now → k < length word.now → to_ascii_uppercase (slice_index units.now k) ≡ slice_index word.now k) }
{
    units.iter().zip(word).all(|(unit, letter)| to_ascii_uppercase(*unit) == u16::from(*letter))
}

/// Whether the units are this word, which is in upper case, in any case.
fn is_word(units: &[u16], word: &[u8]) -> bool
    ensures { result ≡ bytes_eq (str_to_ascii_uppercase units.now) word.now }
{
    units.len() == word.len() && agrees(units, word)
}

fn is_plain_device(name: &[u16]) -> bool
    ensures { result ≡ list_any (bytes_eq (str_to_ascii_uppercase name.now)) plain_devices }
{
    is_word(name, b"CON") || is_word(name, b"PRN") || is_word(name, b"AUX") || is_word(name, b"NUL")
}

/// Whether the unit numbers a port: a digit, or ¹, ² or ³.
fn is_port_number(unit: u16) -> bool
    ensures { result ≡ list_any (λ number. unit == number) port_numbers }
{
    matches!(unit, 48..=57 | 0xb9 | 0xb2 | 0xb3)
}

fn is_port(name: &[u16]) -> bool
    ensures { result ≡ (bytes_eq (str_to_ascii_uppercase name.now) (codes "COM") || bytes_eq (str_to_ascii_uppercase name.now) (codes "LPT")) }
{
    is_word(name, b"COM") || is_word(name, b"LPT")
}

fn is_port_device(name: &[u16]) -> bool
    ensures { result ≡ list_any (bytes_eq (str_to_ascii_uppercase name.now)) port_devices }
{
    let Some((number, port)) = name.split_last() else {
        return false;
    };
    is_port_number(*number) && is_port(port)
}

/// Whether the name is that of a device, in any case.
fn is_device(name: &[u16]) -> bool
    ensures { result ≡ is_device (str_to_ascii_uppercase name.now) }
{
    is_plain_device(name) || is_port_device(name)
}

/// Whether the path names a device and no file. Its last component counts, empty ones and `.`
/// passed over, and of that what stands before its first dot after its first unit, without white
/// space at its end: `CON`, `PRN`, `AUX`, `NUL`, or `COM` or `LPT` with a digit, ¹, ² or ³, each in
/// any ASCII case.
pub fn is_reserved_device(path: &[u16]) -> bool
    ensures { result ≡ is_reserved path.now }
{
    match last_component(path) {
        Some(component) if component != [DOT, DOT].as_slice() => {
            is_device(trim_end(stem(component)))
        }
        _ => false,
    }
}
