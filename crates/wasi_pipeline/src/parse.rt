ghost use Rattle.std.specs.Prelude.{◌≡◌, ◌≤◌, ◌∷◌, ◌++◌, [], length, IfOk, IfErr, OnOk};
ghost use Rattle.wasi_pipeline.specs.Bounds.{HaveBounds, OnBadLine, ReadsBound};
ghost use Rattle.wasi_pipeline.specs.Grammar.{Bad, Steps, parsed, reading_after};

use crate::declarations::Declared;
use crate::line::Line;
use crate::reading::{Reading, read_line};
use std::alloc::Global;
use thiserror::Error;
use wasi_base::OutOfMemory;
use wasi_words::Parts;

/// Why a script gives no steps.
#[derive(Clone, Copy, Debug, PartialEq, Eq, Drop, Error)]
pub enum ScriptError {
    /// The first line that is not valid, counted from 1 over all lines.
    #[error("bad script: line {0}")]
    BadLine(u64),
    #[error("out of memory")]
    OutOfMemory,
}

impl From<OutOfMemory> for ScriptError {
    ghost use Rattle.wasi_pipeline.specs.declared.parse.ScriptError.TheVariants as script_error;

    ghost from_gives = { λ _ result. result ≡ script_error.OutOfMemory };

    fn from(_: OutOfMemory) -> ScriptError {
        ScriptError::OutOfMemory
    }
}

/// The steps of a script of at most 16777216 bytes, or its first line that is not valid.
pub fn parse_script(alloc: Global, bytes: &[u8]) -> Result<Vec<Line>, ScriptError>
    requires { length bytes.now ≤ 16777216 }
    ensures ok { IfOk result (λ steps. parsed bytes.now ≡ Steps steps.items) }
    ensures bounds { IfOk result (λ steps. HaveBounds steps.items) }
    ensures bad { IfErr result (λ error. OnBadLine error (λ number. parsed bytes.now ≡ Bad number)) }
{
    let mut steps = Vec::new(alloc);
    let mut declared = Declared::nothing();
    let mut number: u64 = 0;
    for text in Parts::new(bytes, b'\n') {
        number += 1;
        match read_after(declared, text) {
            Reading::Note => {}
            Reading::Step(line) => {
                declared = declared.after(line);
                keep(&mut steps, line)?;
            }
            Reading::Invalid => return Err(ScriptError::BadLine(number)),
        }
    }
    Ok(steps)
}

fn keep(steps: &mut Vec<Line>, line: Line) -> Result<(), OutOfMemory>
    ensures { OnOk result (steps.new.items ≡ steps.old.items ++ line ∷ []) }
{
    steps.push(line)?;
    Ok(())
}

// What a line is after the lines so far.
fn read_after(declared: Declared, text: &[u8]) -> Reading
    ensures reading { result ≡ reading_after declared text.now }
    ensures bound { ReadsBound result }
{
    match read_line(text) {
        Reading::Step(line) if !declared.allows(line) => Reading::Invalid,
        reading => reading,
    }
}
