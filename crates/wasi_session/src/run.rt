ghost use Rattle.std.specs.Prelude.{◌≡◌, ◌≤◌, ℕ, IfErr, OnOk, Some, Err};
ghost use Rattle.wasi_base.specs.Causes.{Rose};
ghost use Rattle.wasi_base.specs.Sink.{with_more};
ghost use Rattle.wasi_base.specs.Source.{Told};
ghost use Rattle.wasi_script.specs.Grammar.{AllStand, no_names};
ghost use Rattle.wasi_commands.specs.Programs.{OnUnstarted, OnReadFault, OnWriteFault, OnNoMemory};
ghost use Rattle.wasi_host.specs.Transcript.{transcript, told_after_run, IsDone};
ghost use Rattle.wasi_session.specs.Reading.{ScriptRead, IsCutOff, IsStopped, CutShort, EndEarly};

use crate::session::Session;
use std::alloc::Global;
use wasi_base::{Sink, Source, write_all};
use wasi_commands::{Program, ProgramError as SessionError, RunError, run_script};
use wasi_script::{Line, ScriptError, parse_script};

// runs all steps, and writes each reply after its step, and at the end what the outputs took
fn run_steps<I: Source, K: Sink>(
    alloc: Global,
    steps: &[Line],
    stdin: &mut I,
    out: &mut K,
) -> Result<(), RunError>
    requires { AllStand no_names steps.now }
    ensures done { (t : Told) → I.told stdin.old ≡ Some t → OnOk result ((K.taken out.new ≡ with_more (K.taken out.old) (transcript steps.now t)) × (I.told stdin.new ≡ Some (told_after_run steps.now t))) }
    ensures valid { (n : ℕ) → result ≡ Err (RunError.BadScript n) → ⊥ }
    ensures write { result ≡ Err RunError.WriteFault → Rose (K.faults out.old) (K.faults out.new) }
    ensures cut_off { (t : Told) → I.told stdin.old ≡ Some t → result ≡ Err RunError.WriteFault → CutShort steps.now t (K.taken out.old) (K.taken out.new) (I.told stdin.new) }
    ensures stopped { (t : Told) → I.told stdin.old ≡ Some t → result ≡ Err RunError.OutOfMemory → EndEarly steps.now t (K.taken out.old) (K.taken out.new) (I.told stdin.new) }
{
    let mut session = Session::new(alloc)?;
    let mut text = Vec::new(alloc);
    for line in steps {
        text.clear();
        session.step(line, stdin, &mut text)?;
        write_all(out, &text)?;
    }
    text.clear();
    session.outputs(&mut text)?;
    write_all(out, &text)?;
    Ok(())
}

/// The language of scripts of guest sessions, as programs run it.
pub struct Sessions;

impl Program for Sessions {
    ghost use Rattle.std.proofs.Common.{subst, refl};
    ghost use Rattle.wasi_script.specs.Grammar.{IsGood, parsed, steps_of};
    ghost use Rattle.wasi_host.specs.Transcript.{IsDone};
    ghost use Rattle.wasi_commands.specs.laws.Ended.{before_first};
    ghost use Rattle.wasi_host.specs.Transcript.{told_after_run};
    ghost use Rattle.wasi_session.specs.Reading.{IsValid, IsBadAt, IsCutOff, IsStopped, replies_to, closing_lines};

    ghost is_valid = { IsValid };

    ghost is_bad_at = { IsBadAt };

    ghost is_done = { IsDone };

    ghost is_cut_off = { IsCutOff };

    ghost is_stopped = { IsStopped };

    ghost no_bad_line = { λ script n good bad. subst IsGood bad good };

    ghost may_stop_unread = { λ script t taken. before_first (steps_of (parsed script)) (replies_to t) (closing_lines (steps_of (parsed script)) t) (λ first. told_after_run first t) taken refl };

    fn run<I: Source, K: Sink>(
        alloc: Global,
        script: &[u8],
        stdin: &mut I,
        out: &mut K,
    ) -> Result<(), RunError> {
        match parse_script(alloc, script) {
            Ok(parsed) => run_steps(alloc, parsed.steps(), stdin, out),
            Err(ScriptError::BadLine(number)) => Err(RunError::BadScript(number)),
            Err(ScriptError::OutOfMemory) => Err(RunError::OutOfMemory),
        }
    }
}

/// A whole session: reads the script, runs its steps on the guests' input, and writes the
/// transcript. The whole script is read and checked before the first step, so until then nothing
/// is written and the input is unread. Each reply is written after its step and before the next,
/// so a run whose output fails, or that finds no memory, did at most one step more than it wrote
/// whole replies, and left the input as these steps left it. The output is not flushed.
pub fn run_session<S: Source, I: Source, K: Sink>(
    alloc: Global,
    script: &mut S,
    stdin: &mut I,
    out: &mut K,
) -> Result<(), SessionError>
    ensures done { (s : Told) (t : Told) → S.told script.old ≡ Some s → I.told stdin.old ≡ Some t → OnOk result (IsDone s.left t (K.taken out.old) (K.taken out.new) (I.told stdin.new)) }
    ensures script { (s : Told) → S.told script.old ≡ Some s → ScriptRead result s (S.told script.new) }
    ensures read { IfErr result (λ e. OnReadFault e (Rose (S.faults script.old) (S.faults script.new))) }
    ensures write { IfErr result (λ e. OnWriteFault e (Rose (K.faults out.old) (K.faults out.new))) }
    ensures cut_off { (s : Told) (t : Told) → S.told script.old ≡ Some s → I.told stdin.old ≡ Some t → IfErr result (λ e. OnWriteFault e (IsCutOff s.left t (K.taken out.old) (K.taken out.new) (I.told stdin.new))) }
    ensures stopped { (s : Told) (t : Told) → S.told script.old ≡ Some s → I.told stdin.old ≡ Some t → IfErr result (λ e. OnNoMemory e (IsStopped s.left t (K.taken out.old) (K.taken out.new) (I.told stdin.new))) }
    ensures unstarted { IfErr result (λ e. OnUnstarted e ((out.new ≡ out.old) × (stdin.new ≡ stdin.old))) }
    ensures later { S.faults script.old ≤ S.faults script.new }
{
    run_script::<Sessions, S, I, K>(alloc, script, stdin, out)
}
