ghost use Rattle.std.specs.Prelude.{◌≡◌, ◌≤◌, [], IfErr, OnOk, Some, Err};
ghost use Rattle.wasi_base.specs.Causes.{Rose};
ghost use Rattle.wasi_base.specs.Source.{Told};
ghost use Rattle.wasi_commands.specs.Programs.{OnUnstarted, OnReadFault, OnWriteFault, OnNoMemory};
ghost use Rattle.wasi_pipeline.specs.Program.{ScriptRead, IsCutOff, IsDone, IsStopped};

use crate::parse::{ScriptError, parse_script};
use crate::run::run_steps;
use std::alloc::Global;
use wasi_base::{Sink, Source};
use wasi_commands::{Program, ProgramError as PipelineError, RunError, run_script};

/// The language of scripts of pipelines, as programs run it.
pub struct Pipelines;

impl Program for Pipelines {
    ghost use Rattle.std.proofs.Common.{subst, refl};
    ghost use Rattle.wasi_commands.specs.laws.Ended.{before_first};
    ghost use Rattle.wasi_pipeline.specs.Grammar.{IsGood, parsed, steps_of};
    ghost use Rattle.wasi_pipeline.specs.Program.{IsValid, IsBadAt, IsCutOff, IsDone, IsStopped};
    ghost use Rattle.wasi_pipeline.specs.Run.{transcript, told_after_run};

    ghost is_valid = { IsValid };

    ghost is_bad_at = { IsBadAt };

    ghost is_done = { IsDone };

    ghost is_cut_off = { IsCutOff };

    ghost is_stopped = { IsStopped };

    ghost no_bad_line = { λ script n good bad. subst IsGood bad good };

    ghost may_stop_unread = { λ script t taken. before_first (steps_of (parsed script)) (λ first. transcript first t) [] (λ first. told_after_run first t) taken refl };

    fn run<I: Source, K: Sink>(
        alloc: Global,
        script: &[u8],
        stdin: &mut I,
        out: &mut K,
    ) -> Result<(), RunError> {
        match parse_script(alloc, script) {
            Ok(steps) => run_steps(alloc, steps.as_slice(), stdin, out),
            Err(ScriptError::BadLine(number)) => Err(RunError::BadScript(number)),
            Err(ScriptError::OutOfMemory) => Err(RunError::OutOfMemory),
        }
    }
}

/// A whole run: reads the script, runs its steps on the input, and writes the
/// transcript. The whole script is read and checked before the first step, so until then nothing
/// is written and the input is unread. Each reply is written after its step and before the next,
/// so a run whose output fails, or that finds no memory, did at most one step more than it wrote
/// whole replies, and left the input as these steps left it. The output is not flushed.
pub fn run_chain<S: Source, I: Source, K: Sink>(
    alloc: Global,
    script: &mut S,
    stdin: &mut I,
    out: &mut K,
) -> Result<(), PipelineError>
    ensures done { (s : Told) (t : Told) → S.told script.old ≡ Some s → I.told stdin.old ≡ Some t → OnOk result (IsDone s.left t (K.taken out.old) (K.taken out.new) (I.told stdin.new)) }
    ensures script { (s : Told) → S.told script.old ≡ Some s → ScriptRead result s (S.told script.new) }
    ensures read { IfErr result (λ e. OnReadFault e (Rose (S.faults script.old) (S.faults script.new))) }
    ensures write { IfErr result (λ e. OnWriteFault e (Rose (K.faults out.old) (K.faults out.new))) }
    ensures cut_off { (s : Told) (t : Told) → S.told script.old ≡ Some s → I.told stdin.old ≡ Some t → IfErr result (λ e. OnWriteFault e (IsCutOff s.left t (K.taken out.old) (K.taken out.new) (I.told stdin.new))) }
    ensures stopped { (s : Told) (t : Told) → S.told script.old ≡ Some s → I.told stdin.old ≡ Some t → IfErr result (λ e. OnNoMemory e (IsStopped s.left t (K.taken out.old) (K.taken out.new) (I.told stdin.new))) }
    ensures unstarted { IfErr result (λ e. OnUnstarted e ((out.new ≡ out.old) × (stdin.new ≡ stdin.old))) }
    ensures later { S.faults script.old ≤ S.faults script.new }
{
    run_script::<Pipelines, S, I, K>(alloc, script, stdin, out)
}
