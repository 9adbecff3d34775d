ghost use Rattle.std.specs.Prelude.{◌≡◌, ◌≢◌, ◌≤◌, ◌<◌, ◌⊎◌, ℕ, Some, None, IfSome, string_bytes, true, false, length, take};
ghost use Rattle.std.specs.Str.{bytes_eq};
ghost use Rattle.wasi_base.specs.Causes.{Rose};
ghost use Rattle.wasi_base.specs.Source.{Told};
ghost use Rattle.wasi_base.specs.Sink.{with_more};
ghost use Rattle.wasi_script.specs.Grammar.{parsed, Bad, IsGood};
ghost use Rattle.wasi_host.specs.Transcript.{IsDone};
ghost use Rattle.wasi_commands.specs.Reading.{IsReadWhole, IsReadPast, IsReadInPart};
ghost use Rattle.wasi_commands.specs.Telling.{words_of, Tells, read_fault_line, too_long_line, write_fault_line, out_of_memory_line, bad_script_line};
ghost use Rattle.wasi_session.specs.Reading.{IsCutOff, IsStopped};
ghost use Rattle.wasi_session.specs.Program.{is_run_words, generated_in, usage_line};
ghost use Rattle.wasi_session.specs.Generated.{report};

use crate::generated::report_generated;
use crate::run::Sessions;
use std::alloc::Global;
use wasi_base::{Sink, Source};
use wasi_commands::{is_word, run_command, tell};
use wasi_words::{parse_between, parse_number};

/// All that the program does with its words, the script, the guests' input, its output and the
/// sink for a line on a refusal. A script is run, or one is generated and the counts of its run
/// are written, with nothing read. Answers the exit status: 0 at the good end; 2 for unrecognised
/// words, and then nothing is read; 3 where the script's source failed; 4 for a script of more
/// than 16777216 bytes; 5 for a script with a line that is not valid; 6 where the output failed; 7
/// where memory ran out. Each but 0 is told on `err` in a line, as far as `err` takes it.
pub fn run_program<S: Source, I: Source, K: Sink, E: Sink>(
    alloc: Global,
    words: &[String],
    script: &mut S,
    stdin: &mut I,
    out: &mut K,
    err: &mut E,
) -> u8
    ensures statuses { (result ≡ 0) ⊎ ((2 ≤ result) × (result ≤ 7)) }
    ensures done { is_run_words (words_of words.now) ≡ true → (s : Told) (t : Told) → S.told script.old ≡ Some s → I.told stdin.old ≡ Some t → result ≡ 0 → IsDone s.left t (K.taken out.old) (K.taken out.new) (I.told stdin.new) × IsReadWhole s (S.told script.new) }
    ensures quiet { result ≡ 0 → err.new ≡ err.old }

    ensures words { is_run_words (words_of words.now) ≡ true → result ≢ 2 }
    ensures usage { is_run_words (words_of words.now) ≡ false → generated_in (words_of words.now) ≡ None → (result ≡ 2) × (script.new ≡ script.old) × Tells usage_line (E.taken err.old) (E.taken err.new) (E.faults err.old) (E.faults err.new) }
    ensures read { result ≡ 3 → Rose (S.faults script.old) (S.faults script.new) × ((s : Told) → S.told script.old ≡ Some s → IsReadInPart s (S.told script.new)) × Tells read_fault_line (E.taken err.old) (E.taken err.new) (E.faults err.old) (E.faults err.new) }
    ensures too_long { result ≡ 4 → ((s : Told) → S.told script.old ≡ Some s → IsReadPast s (S.told script.new)) × Tells too_long_line (E.taken err.old) (E.taken err.new) (E.faults err.old) (E.faults err.new) }
    ensures bad { result ≡ 5 → (n : ℕ) × ((s : Told) → S.told script.old ≡ Some s → IsReadWhole s (S.told script.new) × (parsed s.left ≡ Bad n)) × Tells (bad_script_line n) (E.taken err.old) (E.taken err.new) (E.faults err.old) (E.faults err.new) }
    ensures write { is_run_words (words_of words.now) ≡ true → result ≡ 6 → Rose (K.faults out.old) (K.faults out.new) × ((s : Told) → S.told script.old ≡ Some s → IsReadWhole s (S.told script.new) × IsGood (parsed s.left)) × Tells write_fault_line (E.taken err.old) (E.taken err.new) (E.faults err.old) (E.faults err.new) }
    ensures cut_off { is_run_words (words_of words.now) ≡ true → (s : Told) (t : Told) → S.told script.old ≡ Some s → I.told stdin.old ≡ Some t → result ≡ 6 → IsCutOff s.left t (K.taken out.old) (K.taken out.new) (I.told stdin.new) }
    ensures memory { result ≡ 7 → Tells out_of_memory_line (E.taken err.old) (E.taken err.new) (E.faults err.old) (E.faults err.new) }
    ensures stopped { is_run_words (words_of words.now) ≡ true → (s : Told) (t : Told) → S.told script.old ≡ Some s → I.told stdin.old ≡ Some t → result ≡ 7 → IsStopped s.left t (K.taken out.old) (K.taken out.new) (I.told stdin.new) }

    // before the first step nothing is written and the input is unread
    ensures unstarted { 2 ≤ result → result ≤ 5 → (out.new ≡ out.old) × (stdin.new ≡ stdin.old) }

    // a valid script whose source and whose output do not fail
    ensures complete { (s : Told) → S.told script.old ≡ Some s → is_run_words (words_of words.now) ≡ true → IsGood (parsed s.left) → length s.left ≤ 16777216 → (Rose (S.faults script.old) (S.faults script.new) → ⊥) → (Rose (K.faults out.old) (K.faults out.new) → ⊥) → (result ≡ 0) ⊎ (result ≡ 7) }

    // a generated run reads nothing, and reports its counts
    ensures reported { (number lines : ℕ) → generated_in (words_of words.now) ≡ Some (number, lines) → result ≡ 0 → K.taken out.new ≡ with_more (K.taken out.old) (report number lines) }
    ensures reported_in_part { (number lines : ℕ) → generated_in (words_of words.now) ≡ Some (number, lines) → result ≡ 6 → ((n : ℕ) × (n < length (report number lines)) × (K.taken out.new ≡ with_more (K.taken out.old) (take n (report number lines)))) × Rose (K.faults out.old) (K.faults out.new) × Tells write_fault_line (E.taken err.old) (E.taken err.new) (E.faults err.old) (E.faults err.new) }
    ensures unreported { (number lines : ℕ) → generated_in (words_of words.now) ≡ Some (number, lines) → result ≡ 7 → out.new ≡ out.old }
    ensures unread { (number lines : ℕ) → generated_in (words_of words.now) ≡ Some (number, lines) → (script.new ≡ script.old) × (stdin.new ≡ stdin.old) × ((result ≡ 0) ⊎ ((6 ≤ result) × (result ≤ 7))) }
{
    match generated_words(words) {
        Some((number, lines)) => write_report(alloc, number, lines, out, err),
        None => run_command::<Sessions, S, I, K, E>(
            alloc,
            b"run",
            b"usage: wasi_run run FILE | wasi_run gen NUMBER LINES\n",
            words,
            script,
            stdin,
            out,
            err,
        ),
    }
}

// the number and the lines of a generated run, where the words are those of one
fn generated_words(words: &[String]) -> Option<(u64, u64)>
    ensures words { result ≡ generated_in (words_of words.now) }
    ensures within { IfSome result (λ both. both.1 ≤ 100000) }
{
    if words.len() != 3 || !is_word(&words[0], b"gen") {
        return None;
    }
    let number = parse_number(words[1].as_bytes())?;
    let lines = parse_between(words[2].as_bytes(), 0, 100000)?;
    Some((number, u64::from(lines)))
}

fn write_report<K: Sink, E: Sink>(
    alloc: Global,
    number: u64,
    lines: u64,
    out: &mut K,
    err: &mut E,
) -> u8
    requires { lines ≤ 100000 }
    ensures statuses { (result ≡ 0) ⊎ ((6 ≤ result) × (result ≤ 7)) }
    ensures done { result ≡ 0 → K.taken out.new ≡ with_more (K.taken out.old) (report number lines) }
    ensures quiet { result ≡ 0 → err.new ≡ err.old }
    ensures part { result ≡ 6 → (n : ℕ) × (n < length (report number lines)) × (K.taken out.new ≡ with_more (K.taken out.old) (take n (report number lines))) }
    ensures write { result ≡ 6 → Rose (K.faults out.old) (K.faults out.new) × Tells write_fault_line (E.taken err.old) (E.taken err.new) (E.faults err.old) (E.faults err.new) }
    ensures memory { result ≡ 7 → (out.new ≡ out.old) × Tells out_of_memory_line (E.taken err.old) (E.taken err.new) (E.faults err.old) (E.faults err.new) }
{
    match report_generated(alloc, number, lines) {
        Ok(text) => {
            if tell(out, &text) {
                0
            } else {
                tell(err, b"write fault\n");
                6
            }
        }
        Err(_) => {
            tell(err, b"out of memory\n");
            7
        }
    }
}
