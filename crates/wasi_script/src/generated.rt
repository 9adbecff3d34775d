ghost use Rattle.std.specs.Prelude.{◌≡◌, ◌≤◌, ◌<◌, ◌+◌, ◌*◌, [], ◌∷◌, ◌++◌, drop, length, IfOk, OnOk};
ghost use Rattle.std.specs.Iterator.{YieldsFirst, item_count};
ghost use Rattle.std.specs.Fmt.{decimal};
ghost use Rattle.wasi_script.specs.Grammar.{parsed, Steps};
ghost use Rattle.wasi_script.specs.Contexts.{main_context};
ghost use Rattle.wasi_script.specs.Generated.{number_after, numbers_of, text_of_kind, texts_of, opening_steps, step_of_kind, generated_script, generated_steps, generated_input};
ghost use Rattle.wasi_script.specs.declared.lines.Line.TheVariants as line;
ghost use Rattle.wasi_script.specs.declared.lines.Call.TheVariants as call;
ghost use Rattle.wasi_script.specs.declared.lines.Standard.TheVariants as standard;

use crate::contexts::main_context;
use crate::lines::{Access, Call, EntryCall, Input, Line, Standard, WorkerTurn};
use itoa::Buffer;
use std::alloc::Global;
use std::marker::Model;
use wasi_base::OutOfMemory;

/// The most lines that a generated script may have after its opening.
pub const MOST_GENERATED_LINES: u64 = 100000;

const OPENING: &[u8] =
    b"guest 0 shared\nguest 1 shared\ncall 0 get-stdin\ncall 1 get-stdin\ncall 1 async-stdin\n";

/// A script of so many lines after its opening, and an input of eight bytes for each of them.
/// What they are follows from the number alone: each line is one of six kinds by the next number
/// of a linear congruential sequence, and the input's bytes count up.
#[tactic(auto, using(crate::specs::laws::GeneratedValid::is_valid, crate::specs::laws::GeneratedValid::is_short))]
pub fn gen_script(alloc: Global, number: u64, lines: u64) -> Result<(Vec<u8>, Vec<u8>), OutOfMemory>
    requires { lines ≤ 100000 }
    ensures script { IfOk result (λ made. made.0.items ≡ generated_script number lines) }
    ensures input { IfOk result (λ made. made.1.items ≡ generated_input number lines) }
    ensures steps { parsed (generated_script number lines) ≡ Steps (generated_steps number lines) }
    ensures short { length (generated_script number lines) ≤ 16777216 }
{
    let script = generate_text(alloc, number, lines)?;
    let input = gen_input(alloc, number, lines)?;
    Ok((script, input))
}

/// The steps of a generated script, one by one, with no text of it. Contracts see those that are
/// still to come.
#[derive(Drop)]
pub struct GeneratedSteps {
    opened: u8,
    number: u16,
    left: u64,
}

impl Model for GeneratedSteps {
    ghost use Rattle.std.specs.Prelude.{List};
    ghost use Rattle.wasi_script.specs.declared.lines.Line.{Line};
    ghost use Rattle.wasi_script.specs.Generated.{steps_to_come};

    ghost Value = { List Line };

    ghost view = { λ steps. steps_to_come steps.opened steps.number steps.left };
}

/// The steps of the script that `gen_script` makes.
pub fn gen_steps(number: u64, lines: u64) -> GeneratedSteps
    ensures { result ≡ generated_steps number lines }
{
    GeneratedSteps {
        opened: 0,
        number: (number % 65536) as u16,
        left: lines,
    }
}

impl Iterator for GeneratedSteps {
    type Item = Line;

    ghost next_gives = { YieldsFirst (λ steps. steps) };

    ghost remaining = { item_count (λ steps. steps) };

    #[tactic(auto, using(crate::proofs::GeneratedFacts::step_on))]
    fn next(&mut self) -> Option<Line> {
        if self.opened < 5 {
            let step = opening_step(self.opened);
            self.opened += 1;
            Some(step)
        } else if self.left > 0 {
            self.left -= 1;
            self.number = next_number(self.number);
            Some(step_of_kind(self.number / 256 % 6, u64::from(self.number % 64)))
        } else {
            None
        }
    }
}

fn generate_text(alloc: Global, number: u64, lines: u64) -> Result<Vec<u8>, OutOfMemory>
    ensures { IfOk result (λ text. text.items ≡ generated_script number lines) }
{
    let mut text = Vec::from_slice(alloc, OPENING)?;
    let mut at = (number % 65536) as u16;
    for _line in 0..lines {
        at = next_number(at);
        push_line(&mut text, at)?;
    }
    Ok(text)
}

/// The input of a generated script: eight bytes for each line after its opening, which count up
/// from the number.
pub fn gen_input(alloc: Global, number: u64, lines: u64) -> Result<Vec<u8>, OutOfMemory>
    requires { lines ≤ 100000 }
    ensures { IfOk result (λ input. input.items ≡ generated_input number lines) }
{
    let length = 8 * lines;
    let mut input = Vec::with_capacity(alloc, length as usize)?;
    for at in 0..length {
        input.push(((number % 256 + at) % 256) as u8)?;
    }
    Ok(input)
}

// one of the steps of the opening
fn opening_step(index: u8) -> Line
    requires { index < 5 }
    ensures { drop index opening_steps ≡ result ∷ drop (index + 1) opening_steps }
{
    match index {
        0 => Line::Guest {
            guest: 0,
            input: Input::Shared,
        },
        1 => Line::Guest {
            guest: 1,
            input: Input::Shared,
        },
        2 => open_input(0, Access::Plain),
        3 => open_input(1, Access::Plain),
        _ => open_input(1, Access::Polled),
    }
}

fn open_input(guest: u32, access: Access) -> Line
    ensures { result ≡ line.Call (main_context guest) (call.Open standard.Input access) }
{
    Line::Call {
        context: main_context(guest),
        call: Call::Open {
            stream: Standard::Input,
            access,
        },
    }
}

fn step_of_kind(kind: u16, size: u64) -> Line
    ensures { result ≡ step_of_kind kind size }
{
    match kind {
        0 => on_number(0, 0, EntryCall::Read { size }),
        1 => on_number(1, 0, EntryCall::Read { size }),
        2 => Line::Worker(WorkerTurn::Capture),
        3 => Line::Worker(WorkerTurn::Deliver),
        4 => on_number(0, 0, EntryCall::Skip { size }),
        _ => on_number(1, 1, EntryCall::PollRead { room: size }),
    }
}

fn on_number(guest: u32, number: u64, it: EntryCall) -> Line
    ensures { result ≡ line.Call (main_context guest) (call.On number it) }
{
    Line::Call {
        context: main_context(guest),
        call: Call::On { number, call: it },
    }
}

fn next_number(number: u16) -> u16
    ensures { result ≡ number_after number }
{
    ((25173 * u32::from(number) + 13849) % 65536) as u16
}

// a line with its end
fn push_line(text: &mut Vec<u8>, number: u16) -> Result<(), OutOfMemory>
    ensures { OnOk result (text.new.items ≡ text.old.items ++ texts_of (number ∷ [])) }
{
    push_words(text, number / 256 % 6, number % 64)?;
    text.push(b'\n')?;
    Ok(())
}

fn push_words(text: &mut Vec<u8>, kind: u16, size: u16) -> Result<(), OutOfMemory>
    ensures { OnOk result (text.new.items ≡ text.old.items ++ text_of_kind kind size) }
{
    match kind {
        0 => push_request(text, b"call 0 read 0 ", size),
        1 => push_request(text, b"call 1 read 0 ", size),
        2 => push_word(text, b"capture"),
        3 => push_word(text, b"deliver"),
        4 => push_request(text, b"call 0 skip 0 ", size),
        _ => push_request(text, b"call 1 poll-read 1 ", size),
    }
}

fn push_word(text: &mut Vec<u8>, word: &[u8]) -> Result<(), OutOfMemory>
    ensures { OnOk result (text.new.items ≡ text.old.items ++ word.now) }
{
    text.extend_from_slice(word)?;
    Ok(())
}

fn push_request(text: &mut Vec<u8>, words: &[u8], size: u16) -> Result<(), OutOfMemory>
    ensures { OnOk result (text.new.items ≡ text.old.items ++ (words.now ++ decimal size)) }
{
    let mut buffer = Buffer::new();
    text.extend_from_slice(words)?;
    text.extend_from_slice(buffer.format(size).as_bytes())?;
    Ok(())
}
