ghost use Rattle.std.specs.Prelude.{◌≡◌, ◌≤◌, ℕ, OnOk, Some, Err};
ghost use Rattle.wasi_base.specs.Causes.{Rose};
ghost use Rattle.wasi_base.specs.Sink.{with_more};
ghost use Rattle.wasi_base.specs.Source.{Told};
ghost use Rattle.wasi_pipeline.specs.Bounds.{HaveBounds};
ghost use Rattle.wasi_pipeline.specs.Run.{transcript, told_after_run, CutShort, EndEarly};

use crate::line::Line;
use crate::pipeline::Pipeline;
use std::alloc::Global;
use wasi_base::{Sink, Source, write_all};
use wasi_commands::RunError;
use wasi_reply::push_line;

/// Runs all steps on a new pipeline, and writes each reply after its step.
pub fn run_steps<I: Source, K: Sink>(
    alloc: Global,
    steps: &[Line],
    stdin: &mut I,
    out: &mut K,
) -> Result<(), RunError>
    requires { HaveBounds steps.now }
    ensures done { (t : Told) → I.told stdin.old ≡ Some t → OnOk result ((K.taken out.new ≡ with_more (K.taken out.old) (transcript steps.now t)) × (I.told stdin.new ≡ Some (told_after_run steps.now t))) }
    ensures valid { (n : ℕ) → result ≡ Err (RunError.BadScript n) → ⊥ }
    ensures write { result ≡ Err RunError.WriteFault → Rose (K.faults out.old) (K.faults out.new) }
    ensures cut_off { (t : Told) → I.told stdin.old ≡ Some t → result ≡ Err RunError.WriteFault → CutShort steps.now t (K.taken out.old) (K.taken out.new) (I.told stdin.new) }
    ensures stopped { (t : Told) → I.told stdin.old ≡ Some t → result ≡ Err RunError.OutOfMemory → EndEarly steps.now t (K.taken out.old) (K.taken out.new) (I.told stdin.new) }
{
    let mut pipeline = Pipeline::new(alloc)?;
    let mut text = Vec::new(alloc);
    for line in steps {
        let reply = pipeline.step(alloc, line, stdin)?;
        text.clear();
        push_line(alloc, &mut text, &reply)?;
        write_all(out, &text)?;
    }
    Ok(())
}
