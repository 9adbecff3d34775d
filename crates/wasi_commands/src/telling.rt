ghost use Rattle.std.specs.Prelude.{◌≡◌, ◌≢◌, ◌≤◌, ◌<◌, ℕ, string_bytes, true, false, length, take, Ok};
ghost use Rattle.std.specs.Str.{bytes_eq};
ghost use Rattle.wasi_base.specs.Causes.{Rose};
ghost use Rattle.wasi_base.specs.Sink.{with_more, Flushes};
ghost use Rattle.wasi_commands.specs.Telling.{Tells, bad_script_line, write_fault_line};

use itoa::Buffer;
use wasi_base::{Sink, write_all};

/// True where the sink took the whole line. A fault of it changes nothing else.
pub fn tell<E: Sink>(err: &mut E, line: &[u8]) -> bool
    ensures tells { Tells line.now (E.taken err.old) (E.taken err.new) (E.faults err.old) (E.faults err.new) }
    ensures whole { result ≡ true → E.taken err.new ≡ with_more (E.taken err.old) line.now }
    ensures part { result ≡ false → (n : ℕ) × (n < length line.now) × (E.taken err.new ≡ with_more (E.taken err.old) (take n line.now)) × Rose (E.faults err.old) (E.faults err.new) }
    ensures later { E.faults err.old ≤ E.faults err.new }
{
    write_all(err, line).is_ok()
}

/// Tells that the line of this number is not valid.
pub fn tell_bad_script<E: Sink>(err: &mut E, number: u64)
    ensures { Tells (bad_script_line number) (E.taken err.old) (E.taken err.new) (E.faults err.old) (E.faults err.new) }
{
    let mut buffer = Buffer::new();
    let digits = buffer.format(number).as_bytes();
    if !tell(err, b"bad script: line ") {
        return;
    }
    if !tell(err, digits) {
        return;
    }
    tell(err, b"\n");
}

/// Hands on what the output keeps back, and answers the exit status. That is `status`, but 6 where
/// it was 0 and the output fails, which is told.
pub fn finish<K: Sink, E: Sink>(status: u8, out: &mut K, err: &mut E) -> u8
    ensures same { K.taken out.new ≡ K.taken out.old }
    ensures quiet { result ≡ status → err.new ≡ err.old }
    ensures failed { result ≢ status → (status ≡ 0) × (result ≡ 6) × Rose (K.faults out.old) (K.faults out.new) × Tells write_fault_line (E.taken err.old) (E.taken err.new) (E.faults err.old) (E.faults err.new) }
    ensures flushed { status ≡ 0 → result ≡ 0 → Flushes (K.limits out.old) (Ok tt) (K.limits out.new) }
    ensures unfailed { (Rose (K.faults out.old) (K.faults out.new) → ⊥) → result ≡ status }
{
    match out.flush() {
        Err(_) if status == 0 => {
            tell(err, b"write fault\n");
            6
        }
        _ => status,
    }
}

/// Whether a text is this word.
pub fn is_word(text: &String, word: &[u8]) -> bool
    ensures { result ≡ bytes_eq (string_bytes text.now) word.now }
{
    text.as_bytes() == word
}
