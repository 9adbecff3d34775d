use crate::fields::check_number;
use crate::reason::Reason;
use wasi_base::IoKind;

/// Why a word is not the plan of an input.
pub fn check_read_plan(word: &[u8]) -> Result<(), Reason> {
    check_items(word, Err(Reason::FlushOfInput))
}

/// Why a word is not the plan of an output.
pub fn check_write_plan(word: &[u8]) -> Result<(), Reason> {
    check_items(word, Ok(()))
}

// `-` for no items, or up to 1024 items; `flushes` says whether flush faults are among them
fn check_items(word: &[u8], flushes: Result<(), Reason>) -> Result<(), Reason> {
    if word == b"-".as_slice() {
        return Ok(());
    }
    for (place, item) in word.split(|byte| *byte == b',').enumerate() {
        if place == 1024 {
            return Err(Reason::TooManyItems);
        }
        check_item(item, flushes)?;
    }
    Ok(())
}

fn check_item(item: &[u8], flushes: Result<(), Reason>) -> Result<(), Reason> {
    match item {
        [b't', number @ ..] => check_number(number, 0, u64::MAX),
        [b'f', kind @ ..] => check_kind(kind),
        [b'l', kind @ ..] => {
            check_kind(kind)?;
            flushes
        }
        _ => Err(Reason::BadItem),
    }
}

fn check_kind(word: &[u8]) -> Result<(), Reason> {
    match IoKind::of_name(word) {
        Some(_) => Ok(()),
        None => Err(Reason::BadKind),
    }
}
