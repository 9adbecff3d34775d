ghost use Rattle.std.specs.Prelude.{◌≡◌, ◌≢◌, ◌≤◌, ◌<◌, ◌⊎◌, ℕ, Some, string_bytes, true, false, length};
ghost use Rattle.std.specs.Str.{bytes_eq};
ghost use Rattle.wasi_base.specs.Causes.{Rose};
ghost use Rattle.wasi_base.specs.Source.{Told};
ghost use Rattle.wasi_commands.specs.Programs.{is_command_on_file};
ghost use Rattle.wasi_commands.specs.Reading.{IsReadWhole, IsReadPast, IsReadInPart};
ghost use Rattle.wasi_commands.specs.Telling.{words_of, Tells, read_fault_line, too_long_line, write_fault_line, out_of_memory_line, bad_script_line};

use crate::program::{Program, ProgramError, run_script};
use crate::telling::{is_word, tell, tell_bad_script};
use std::alloc::Global;
use wasi_base::{Sink, Source};

/// All that a program does with its words, the script, the input, its output and the sink for a
/// line on a refusal. Its words have to be the command and the name of a file. Answers the exit
/// status: 0 at the good end; 2 for other words, and then nothing is read; 3 where the script's
/// source failed; 4 for a script of more than 16777216 bytes; 5 for a script with a line that is
/// not valid; 6 where the output failed; 7 where memory ran out. Each but 0 is told on `err` in a
/// line, that of `usage` for 2, as far as `err` takes it.
pub fn run_command<P: Program, S: Source, I: Source, K: Sink, E: Sink>(
    alloc: Global,
    command: &[u8],
    usage: &[u8],
    words: &[String],
    script: &mut S,
    stdin: &mut I,
    out: &mut K,
    err: &mut E,
) -> u8
    ensures statuses { (result ≡ 0) ⊎ ((2 ≤ result) × (result ≤ 7)) }
    ensures done { (s : Told) (t : Told) → S.told script.old ≡ Some s → I.told stdin.old ≡ Some t → result ≡ 0 → P.is_done s.left t (K.taken out.old) (K.taken out.new) (I.told stdin.new) × IsReadWhole s (S.told script.new) }
    ensures quiet { result ≡ 0 → err.new ≡ err.old }

    ensures words { is_command_on_file command.now (words_of words.now) ≡ true → result ≢ 2 }
    ensures usage { is_command_on_file command.now (words_of words.now) ≡ false → (result ≡ 2) × (script.new ≡ script.old) × Tells usage.now (E.taken err.old) (E.taken err.new) (E.faults err.old) (E.faults err.new) }
    ensures read { result ≡ 3 → Rose (S.faults script.old) (S.faults script.new) × ((s : Told) → S.told script.old ≡ Some s → IsReadInPart s (S.told script.new)) × Tells read_fault_line (E.taken err.old) (E.taken err.new) (E.faults err.old) (E.faults err.new) }
    ensures too_long { result ≡ 4 → ((s : Told) → S.told script.old ≡ Some s → IsReadPast s (S.told script.new)) × Tells too_long_line (E.taken err.old) (E.taken err.new) (E.faults err.old) (E.faults err.new) }
    ensures bad { result ≡ 5 → (n : ℕ) × ((s : Told) → S.told script.old ≡ Some s → IsReadWhole s (S.told script.new) × P.is_bad_at s.left n) × Tells (bad_script_line n) (E.taken err.old) (E.taken err.new) (E.faults err.old) (E.faults err.new) }
    ensures write { result ≡ 6 → Rose (K.faults out.old) (K.faults out.new) × ((s : Told) → S.told script.old ≡ Some s → IsReadWhole s (S.told script.new) × P.is_valid s.left) × Tells write_fault_line (E.taken err.old) (E.taken err.new) (E.faults err.old) (E.faults err.new) }
    ensures cut_off { (s : Told) (t : Told) → S.told script.old ≡ Some s → I.told stdin.old ≡ Some t → result ≡ 6 → P.is_cut_off s.left t (K.taken out.old) (K.taken out.new) (I.told stdin.new) }
    ensures memory { result ≡ 7 → Tells out_of_memory_line (E.taken err.old) (E.taken err.new) (E.faults err.old) (E.faults err.new) }
    ensures stopped { (s : Told) (t : Told) → S.told script.old ≡ Some s → I.told stdin.old ≡ Some t → result ≡ 7 → P.is_stopped s.left t (K.taken out.old) (K.taken out.new) (I.told stdin.new) }

    // before the first step nothing is written and the input is unread
    ensures unstarted { 2 ≤ result → result ≤ 5 → (out.new ≡ out.old) × (stdin.new ≡ stdin.old) }

    // a valid script whose source and whose output do not fail
    ensures complete { (s : Told) → S.told script.old ≡ Some s → is_command_on_file command.now (words_of words.now) ≡ true → P.is_valid s.left → length s.left ≤ 16777216 → (Rose (S.faults script.old) (S.faults script.new) → ⊥) → (Rose (K.faults out.old) (K.faults out.new) → ⊥) → (result ≡ 0) ⊎ (result ≡ 7) }
{
    if !is_on_file(command, words) {
        tell(err, usage);
        return 2;
    }
    match run_script::<P, S, I, K>(alloc, script, stdin, out) {
        Ok(()) => 0,
        Err(ProgramError::ReadFault) => {
            tell(err, b"read fault\n");
            3
        }
        Err(ProgramError::TooLong) => {
            tell(err, b"script too long\n");
            4
        }
        Err(ProgramError::BadScript(number)) => {
            tell_bad_script(err, number);
            5
        }
        Err(ProgramError::WriteFault) => {
            tell(err, b"write fault\n");
            6
        }
        Err(ProgramError::OutOfMemory) => {
            tell(err, b"out of memory\n");
            7
        }
    }
}

fn is_on_file(command: &[u8], words: &[String]) -> bool
    ensures { result ≡ is_command_on_file command.now (words_of words.now) }
{
    words.len() == 2 && is_word(&words[0], command)
}
