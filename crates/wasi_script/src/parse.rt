ghost use Rattle.std.specs.Prelude.{◌≡◌, ◌≤◌, ◌<◌, ◌↔◌, ◌∷◌, ◌++◌, [], Some, length, slice_get, IsTrue, IfOk, IfErr, OnOk};
ghost use Rattle.wasi_script.specs.Grammar.{parsed, Steps, Bad, reading_after, AllStand, no_names};
ghost use Rattle.wasi_script.specs.Refused.{OnBadLine};

use crate::declarations::{Declarations, Declared};
use crate::forms::{Reading, read_line};
use crate::lines::Line;
use std::alloc::Global;
use std::marker::Model;
use thiserror::Error;
use wasi_base::OutOfMemory;
use wasi_words::Parts;

/// The steps of a valid script, in order.
#[derive(Drop)]
pub struct Script {
    steps: Vec<Line>,
}

impl Model for Script {
    ghost use Rattle.std.specs.Prelude.{List};
    ghost use Rattle.wasi_script.specs.declared.lines.Line.{Line};

    ghost Value = { List Line };

    ghost view = { λ script. script.steps.items };
}

impl Script {
    /// How many steps there are. Comments and empty lines make none.
    pub fn len(&self) -> u64
        ensures { result ≡ length self.now }
    {
        self.steps.len() as u64
    }

    pub fn is_empty(&self) -> bool
        ensures { IsTrue result ↔ (self.now ≡ []) }
    {
        self.steps.is_empty()
    }

    /// The step at a place, counted from 0.
    pub fn line(&self, at: u64) -> &Line
        requires { at < length self.now }
        ensures { slice_get self.now at ≡ Some result.now }
    {
        &self.steps[at as usize]
    }

    pub fn steps(&self) -> &[Line]
        ensures { result.now ≡ self.now }
    {
        self.steps.as_slice()
    }
}

/// Why a script gives no steps.
#[derive(Clone, Copy, Debug, PartialEq, Eq, Drop, Error)]
pub enum ScriptError {
    /// The first line that is not valid, counted from 1 over all lines.
    #[error("bad script: line {0}")]
    BadLine(u64),
    #[error("out of memory")]
    OutOfMemory,
}

impl From<OutOfMemory> for ScriptError {
    ghost use Rattle.wasi_script.specs.declared.parse.ScriptError.TheVariants as script_error;

    ghost from_gives = { λ _ result. result ≡ script_error.OutOfMemory };

    fn from(_: OutOfMemory) -> ScriptError {
        ScriptError::OutOfMemory
    }
}

/// The steps of a script of at most 16777216 bytes, or its first line that is not valid.
pub fn parse_script(alloc: Global, bytes: &[u8]) -> Result<Script, ScriptError>
    requires { length bytes.now ≤ 16777216 }
    ensures ok { IfOk result (λ script. parsed bytes.now ≡ Steps script) }
    ensures stand { IfOk result (λ script. AllStand no_names script) }
    ensures bad { IfErr result (λ error. OnBadLine error (λ number. parsed bytes.now ≡ Bad number)) }
{
    let mut steps = Vec::new(alloc);
    let mut declarations = Declarations::none(alloc);
    let mut number: u64 = 0;
    for text in Parts::new(bytes, b'\n') {
        number += 1;
        match read_after(alloc, &declarations, text)? {
            Reading::Note => {}
            Reading::Step(line) => {
                declarations.declare(alloc, &line)?;
                keep(&mut steps, line)?;
            }
            Reading::Invalid => return Err(ScriptError::BadLine(number)),
        }
    }
    Ok(Script { steps })
}

fn keep(steps: &mut Vec<Line>, line: Line) -> Result<(), OutOfMemory>
    ensures { OnOk result (steps.new.items ≡ steps.old.items ++ line ∷ []) }
{
    steps.push(line)?;
    Ok(())
}

/// What a line of text, without its end, is after what was declared.
pub fn read_after<D: Declared>(
    alloc: Global,
    declared: &D,
    text: &[u8],
) -> Result<Reading, OutOfMemory>
    ensures { IfOk result (λ reading. reading ≡ reading_after (D.names declared.now) text.now) }
{
    match read_line(alloc, text)? {
        Reading::Step(line) if !declared.allow(&line) => Ok(Reading::Invalid),
        reading => Ok(reading),
    }
}
