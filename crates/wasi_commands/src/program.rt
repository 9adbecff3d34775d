ghost use Rattle.std.specs.Prelude.{◌≡◌, ◌≤◌, ℕ, List, Option, IfErr, OnOk, Some, Err, length};
ghost use Rattle.wasi_base.specs.Causes.{Rose};
ghost use Rattle.wasi_base.specs.Source.{Told};
ghost use Rattle.wasi_commands.specs.Programs.{RunTells, AnswerTells, OnUnstarted, OnReadFault, OnWriteFault, OnNoMemory};

use crate::read::{ReadError, read_script};
use std::alloc::Global;
use wasi_base::{OutOfMemory, Sink, Source, WriteStop};

/// Why the run of a script that was read did not come to its good end.
#[derive(Clone, Copy, Debug, PartialEq, Eq, Drop)]
pub enum RunError {
    /// The first line that is not valid, counted from 1.
    BadScript(u64),
    /// The output failed.
    WriteFault,
    OutOfMemory,
}

impl From<OutOfMemory> for RunError {
    ghost use Rattle.wasi_commands.specs.declared.program.RunError.TheVariants as run_error;

    ghost from_gives = { λ _ result. result ≡ run_error.OutOfMemory };

    fn from(_: OutOfMemory) -> RunError {
        RunError::OutOfMemory
    }
}

impl From<WriteStop> for RunError {
    ghost use Rattle.wasi_commands.specs.declared.program.RunError.TheVariants as run_error;

    ghost from_gives = { λ _ result. result ≡ run_error.WriteFault };

    fn from(_: WriteStop) -> RunError {
        RunError::WriteFault
    }
}

/// Why a program did not come to its good end.
#[derive(Clone, Copy, Debug, PartialEq, Eq, Drop)]
pub enum ProgramError {
    /// The script's source failed.
    ReadFault,
    /// The script has more than 16777216 bytes.
    TooLong,
    /// The first line that is not valid, counted from 1.
    BadScript(u64),
    /// The output failed.
    WriteFault,
    OutOfMemory,
}

/// A language of scripts that are run on one input and write one output.
///
/// The implementor says which scripts are valid, and what a run does to an input and an output
/// that tell.
pub trait Program {
    /// The script is valid.
    ghost is_valid: { List ℕ → Type 0 };

    /// The script's first line that is not valid has this number, counted from 1.
    ghost is_bad_at: { List ℕ → ℕ → Type 0 };

    /// A run of the script on this input came to its good end: what the output took before and
    /// after it, and what the input tells then.
    ghost is_done: { List ℕ → Told → Option (List ℕ) → Option (List ℕ) → Option Told → Type 0 };

    /// The same of a run whose output failed.
    ghost is_cut_off: { List ℕ → Told → Option (List ℕ) → Option (List ℕ) → Option Told → Type 0 };

    /// The same of a run that found no memory.
    ghost is_stopped: { List ℕ → Told → Option (List ℕ) → Option (List ℕ) → Option Told → Type 0 };

    /// Checks a whole script of at most 16777216 bytes, and then runs it: each reply is written
    /// after its step and before the next. A script that is not valid leaves the input unread and
    /// writes nothing. The output is not flushed.
    fn run<I: Source, K: Sink>(
        alloc: Global,
        script: &[u8],
        stdin: &mut I,
        out: &mut K,
    ) -> Result<(), RunError>
        requires { length script.now ≤ 16777216 }
        ensures done { (t : Told) → I.told stdin.old ≡ Some t → OnOk result (is_done script.now t (K.taken out.old) (K.taken out.new) (I.told stdin.new)) }
        ensures script { RunTells is_valid is_bad_at result script.now }
        ensures write { result ≡ Err RunError.WriteFault → Rose (K.faults out.old) (K.faults out.new) }
        ensures cut_off { (t : Told) → I.told stdin.old ≡ Some t → result ≡ Err RunError.WriteFault → is_cut_off script.now t (K.taken out.old) (K.taken out.new) (I.told stdin.new) }
        ensures stopped { (t : Told) → I.told stdin.old ≡ Some t → result ≡ Err RunError.OutOfMemory → is_stopped script.now t (K.taken out.old) (K.taken out.new) (I.told stdin.new) }
        ensures unstarted { (n : ℕ) → result ≡ Err (RunError.BadScript n) → (out.new ≡ out.old) × (stdin.new ≡ stdin.old) };

    /// A valid script has no line that is not valid.
    ghost no_bad_line: { (script : List ℕ) → (n : ℕ) → is_valid script → is_bad_at script n → ⊥ };

    /// A run may find no memory before its first step.
    ghost may_stop_unread: { (script : List ℕ) → (t : Told) → (taken : Option (List ℕ)) → is_stopped script t taken taken (Some t) };
}

/// Reads a script and runs it. The whole script is read and checked before the first step, so
/// until then nothing is written and the input is unread. Each reply is written after its step
/// and before the next. The output is not flushed.
pub fn run_script<P: Program, S: Source, I: Source, K: Sink>(
    alloc: Global,
    script: &mut S,
    stdin: &mut I,
    out: &mut K,
) -> Result<(), ProgramError>
    ensures done { (s : Told) (t : Told) → S.told script.old ≡ Some s → I.told stdin.old ≡ Some t → OnOk result (P.is_done s.left t (K.taken out.old) (K.taken out.new) (I.told stdin.new)) }
    ensures script { (s : Told) → S.told script.old ≡ Some s → AnswerTells P.is_valid P.is_bad_at result s (S.told script.new) }
    ensures read { IfErr result (λ e. OnReadFault e (Rose (S.faults script.old) (S.faults script.new))) }
    ensures write { IfErr result (λ e. OnWriteFault e (Rose (K.faults out.old) (K.faults out.new))) }
    ensures cut_off { (s : Told) (t : Told) → S.told script.old ≡ Some s → I.told stdin.old ≡ Some t → IfErr result (λ e. OnWriteFault e (P.is_cut_off s.left t (K.taken out.old) (K.taken out.new) (I.told stdin.new))) }
    ensures stopped { (s : Told) (t : Told) → S.told script.old ≡ Some s → I.told stdin.old ≡ Some t → IfErr result (λ e. OnNoMemory e (P.is_stopped s.left t (K.taken out.old) (K.taken out.new) (I.told stdin.new))) }
    ensures unstarted { IfErr result (λ e. OnUnstarted e ((out.new ≡ out.old) × (stdin.new ≡ stdin.old))) }
    ensures later { S.faults script.old ≤ S.faults script.new }
{
    match read_script(alloc, script) {
        Ok(bytes) => match P::run(alloc, &bytes, stdin, out) {
            Ok(()) => Ok(()),
            Err(RunError::BadScript(number)) => Err(ProgramError::BadScript(number)),
            Err(RunError::WriteFault) => Err(ProgramError::WriteFault),
            Err(RunError::OutOfMemory) => Err(ProgramError::OutOfMemory),
        },
        Err(ReadError::Fault) => Err(ProgramError::ReadFault),
        Err(ReadError::TooLong) => Err(ProgramError::TooLong),
        Err(ReadError::OutOfMemory) => Err(ProgramError::OutOfMemory),
    }
}
