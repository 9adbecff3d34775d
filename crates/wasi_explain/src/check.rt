use crate::declared::Declared;
use crate::fields::Field;
use crate::forms::{call_fields, clock_fields, line_fields, turn_fields};
use crate::reason::Reason;
use crate::words::{Flaw, Words};

/// What is wrong with a line after those before it: bytes and blanks first, and then the words from
/// the front.
pub fn check_line(line: &[u8], declared: &Declared) -> Result<(), Flaw> {
    check_blanks(line)?;
    let mut words = Words::new(line);
    let word = words.expect_word()?;
    let fields = line_fields(word.text).ok_or(word.flaw(Reason::NoSuchLine))?;
    check_fields(fields, &mut words, declared)?;
    match word.text {
        b"call" => check_call(&mut words, declared)?,
        b"turn" => check_turn(&mut words, declared)?,
        b"clock" => check_clock(&mut words, declared)?,
        _ => {}
    }
    words.expect_end()
}

fn check_call(words: &mut Words, declared: &Declared) -> Result<(), Flaw> {
    let name = words.expect_word()?;
    let fields = call_fields(name.text).ok_or(name.flaw(Reason::NoSuchCall))?;
    check_fields(fields, words, declared)
}

fn check_turn(words: &mut Words, declared: &Declared) -> Result<(), Flaw> {
    let kind = words.expect_word()?;
    let fields = turn_fields(kind.text).ok_or(kind.flaw(Reason::NoSuchTask))?;
    check_fields(fields, words, declared)
}

fn check_clock(words: &mut Words, declared: &Declared) -> Result<(), Flaw> {
    let clock = words.expect_word()?;
    let fields = clock_fields(clock.text).ok_or(clock.flaw(Reason::NoSuchClock))?;
    check_fields(fields, words, declared)
}

fn check_fields(fields: &[Field], words: &mut Words, declared: &Declared) -> Result<(), Flaw> {
    for field in fields {
        let word = words.expect_word()?;
        if let Err(reason) = field.check(word.text, declared) {
            return Err(word.flaw(reason));
        }
    }
    Ok(())
}

// Each byte is a part of a word, or one space between two words.
fn check_blanks(line: &[u8]) -> Result<(), Flaw> {
    let mut before = b' ';
    for (place, byte) in line.iter().enumerate() {
        let left = line.len() - place;
        if let Some(reason) = why_not(*byte, before, left == 1) {
            return Err(Flaw { left, reason });
        }
        before = *byte;
    }
    Ok(())
}

// why a byte may not stand after the one before it, or as a line's last one
fn why_not(byte: u8, before: u8, is_last: bool) -> Option<Reason> {
    match byte {
        b'\t' => Some(Reason::Tab),
        b'\r' => Some(Reason::CarriageReturn),
        b' ' if before == b' ' || is_last => Some(Reason::ExtraBlank),
        b' '..=b'~' => None,
        _ => Some(Reason::NotPrintable),
    }
}
