ghost use Rattle.std.specs.Prelude.{◌≡◌, ◌++◌, OnOk, IfOk, OnErr};
ghost use Rattle.hex.specs.Hex.{encode_lower};
ghost use Rattle.wasi_race.specs.History.{pieces_in, piece_of, piece_by, reader_of};
ghost use Rattle.wasi_race.specs.Races.{race_text, piece_lines, last_line, reader_name};

use crate::outcome::{Last, Reader};
use std::alloc::Global;
use wasi_base::OutOfMemory;
use wasi_threads::{Entry, Event};

impl Reader {
    fn name(self) -> &'static [u8]
        ensures { result.now ≡ reader_name self }
    {
        match self {
            Reader::First => b"0",
            Reader::Second => b"1",
        }
    }
}

fn reader_of(first: u64, pass: u64) -> Reader
    ensures { result ≡ reader_of first pass }
{
    if pass == first {
        Reader::First
    } else {
        Reader::Second
    }
}

// lower-case digits, two for each byte
fn push_digits(text: &mut Vec<u8>, bytes: &[u8]) -> Result<(), OutOfMemory>
    ensures { OnOk result (text.new.items ≡ text.old.items ++ encode_lower bytes.now) }
{
    let before = text.len();
    let digits = bytes.len().checked_mul(2).ok_or(OutOfMemory)?;
    let after = before.checked_add(digits).ok_or(OutOfMemory)?;
    text.resize(after, 0)?;
    match hex::encode_to_slice(bytes, &mut text[before..]) {
        Ok(()) => Ok(()),
        Err(_) => unreachable!(),
    }
}

// a line for a read that gave bytes
fn push_piece(text: &mut Vec<u8>, reader: Reader, bytes: &[u8]) -> Result<(), OutOfMemory>
    ensures { OnOk result (text.new.items ≡ text.old.items ++ piece_lines (piece_of reader bytes.now)) }
{
    if bytes.is_empty() {
        return Ok(());
    }
    text.extend_from_slice(reader.name())?;
    text.push(b' ')?;
    push_digits(text, bytes)?;
    text.push(b'\n')?;
    Ok(())
}

fn push_entry(text: &mut Vec<u8>, first: u64, entry: &Entry) -> Result<(), OutOfMemory>
    ensures { OnOk result (text.new.items ≡ text.old.items ++ piece_lines (piece_by entry.now.event (reader_of first entry.now.pass) entry.now.bytes)) }
{
    match entry.event {
        Event::Read(_) => push_piece(text, reader_of(first, entry.pass), entry.bytes.as_slice()),
        _ => Ok(()),
    }
}

fn push_last(text: &mut Vec<u8>, last: Last) -> Result<(), OutOfMemory>
    ensures { OnOk result (text.new.items ≡ text.old.items ++ last_line last) }
{
    match last {
        Last::End => text.extend_from_slice(b"end\n")?,
        Last::Fault(kind) => {
            text.extend_from_slice(b"fault ")?;
            text.extend_from_slice(kind.name().as_bytes())?;
            text.push(b'\n')?;
        }
    }
    Ok(())
}

/// What a race prints. `first` is the number of the first reader's pass.
#[tactic(auto, using(crate::proofs::TextFacts::lines_append))]
pub(crate) fn text_of(
    alloc: Global,
    history: &[Entry],
    first: u64,
    last: Last,
) -> Result<Vec<u8>, OutOfMemory>
    ensures { IfOk result (λ text. text.items ≡ race_text (pieces_in first history.now) last) }
{
    let mut text = Vec::new(alloc);
    for i in 0..history.len() {
        push_entry(&mut text, first, &history[i])?;
    }
    push_last(&mut text, last)?;
    Ok(text)
}
