ghost use Rattle.std.specs.Prelude.{◌≡◌, ◌≢◌, ◌≤◌, ◌<◌, ◌⊎◌, ℕ, Some, string_bytes, true, false, length};
ghost use Rattle.wasi_base.specs.Causes.{Rose};
ghost use Rattle.wasi_base.specs.Source.{Told};
ghost use Rattle.wasi_commands.specs.Reading.{IsReadWhole, IsReadPast, IsReadInPart};
ghost use Rattle.wasi_commands.specs.Telling.{words_of, Tells, read_fault_line, too_long_line, write_fault_line, out_of_memory_line, bad_script_line};
ghost use Rattle.wasi_pipeline.specs.Grammar.{parsed, Bad, IsGood};
ghost use Rattle.wasi_pipeline.specs.Program.{is_pipe_words, usage_line, IsDone, IsCutOff, IsStopped};

use crate::chain_run::Pipelines;
use std::alloc::Global;
use wasi_base::{Sink, Source};
use wasi_commands::run_command;

/// All that the program does with its words, the script, the input, its output and the
/// sink for a line on a refusal. Answers the exit status: 0 at the good end; 2 for unrecognised
/// words, and then nothing is read; 3 where the script's source failed; 4 for a script of more
/// than 16777216 bytes; 5 for a script with a line that is not valid; 6 where the output failed; 7
/// where memory ran out. Each but 0 is told on `err` in a line, as far as `err` takes it.
pub fn run_pipeline<S: Source, I: Source, K: Sink, E: Sink>(
    alloc: Global,
    words: &[String],
    script: &mut S,
    stdin: &mut I,
    out: &mut K,
    err: &mut E,
) -> u8
    ensures statuses { (result ≡ 0) ⊎ ((2 ≤ result) × (result ≤ 7)) }
    ensures done { (s : Told) (t : Told) → S.told script.old ≡ Some s → I.told stdin.old ≡ Some t → result ≡ 0 → IsDone s.left t (K.taken out.old) (K.taken out.new) (I.told stdin.new) × IsReadWhole s (S.told script.new) }
    ensures quiet { result ≡ 0 → err.new ≡ err.old }

    ensures words { is_pipe_words (words_of words.now) ≡ true → result ≢ 2 }
    ensures usage { is_pipe_words (words_of words.now) ≡ false → (result ≡ 2) × (script.new ≡ script.old) × Tells usage_line (E.taken err.old) (E.taken err.new) (E.faults err.old) (E.faults err.new) }
    ensures read { result ≡ 3 → Rose (S.faults script.old) (S.faults script.new) × ((s : Told) → S.told script.old ≡ Some s → IsReadInPart s (S.told script.new)) × Tells read_fault_line (E.taken err.old) (E.taken err.new) (E.faults err.old) (E.faults err.new) }
    ensures too_long { result ≡ 4 → ((s : Told) → S.told script.old ≡ Some s → IsReadPast s (S.told script.new)) × Tells too_long_line (E.taken err.old) (E.taken err.new) (E.faults err.old) (E.faults err.new) }
    ensures bad { result ≡ 5 → (n : ℕ) × ((s : Told) → S.told script.old ≡ Some s → IsReadWhole s (S.told script.new) × (parsed s.left ≡ Bad n)) × Tells (bad_script_line n) (E.taken err.old) (E.taken err.new) (E.faults err.old) (E.faults err.new) }
    ensures write { result ≡ 6 → Rose (K.faults out.old) (K.faults out.new) × ((s : Told) → S.told script.old ≡ Some s → IsReadWhole s (S.told script.new) × IsGood (parsed s.left)) × Tells write_fault_line (E.taken err.old) (E.taken err.new) (E.faults err.old) (E.faults err.new) }
    ensures cut_off { (s : Told) (t : Told) → S.told script.old ≡ Some s → I.told stdin.old ≡ Some t → result ≡ 6 → IsCutOff s.left t (K.taken out.old) (K.taken out.new) (I.told stdin.new) }
    ensures memory { result ≡ 7 → Tells out_of_memory_line (E.taken err.old) (E.taken err.new) (E.faults err.old) (E.faults err.new) }
    ensures stopped { (s : Told) (t : Told) → S.told script.old ≡ Some s → I.told stdin.old ≡ Some t → result ≡ 7 → IsStopped s.left t (K.taken out.old) (K.taken out.new) (I.told stdin.new) }

    // before the first step nothing is written and the input is unread
    ensures unstarted { 2 ≤ result → result ≤ 5 → (out.new ≡ out.old) × (stdin.new ≡ stdin.old) }

    // a valid script whose source and whose output do not fail
    ensures complete { (s : Told) → S.told script.old ≡ Some s → is_pipe_words (words_of words.now) ≡ true → IsGood (parsed s.left) → length s.left ≤ 16777216 → (Rose (S.faults script.old) (S.faults script.new) → ⊥) → (Rose (K.faults out.old) (K.faults out.new) → ⊥) → (result ≡ 0) ⊎ (result ≡ 7) }
{
    run_command::<Pipelines, S, I, K, E>(
        alloc,
        b"pipe",
        b"usage: wasi_pipe pipe FILE\n",
        words,
        script,
        stdin,
        out,
        err,
    )
}
