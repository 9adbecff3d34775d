ghost use Rattle.std.specs.Prelude.{◌≡◌, ◌≤◌, ◌<◌, ◌-◌, ◌^◌, ◌++◌, length, IfOk, OnOk, Some};
ghost use Rattle.wasi_base.specs.Source.{Told};
ghost use Rattle.wasi_script.specs.Grammar.{AllStand, no_names};
ghost use Rattle.wasi_stdin.specs.Shared.{given_now};
ghost use Rattle.wasi_reply.specs.Reply.{reply_line};
ghost use Rattle.wasi_host.specs.Host.{IsStep, Fits, reply_to};
ghost use Rattle.wasi_host.specs.Transcript.{transcript, told_after_run};
ghost use Rattle.wasi_session.specs.Generated.{count_line, count_lines, report};

use crate::session::Session;
use itoa::Buffer;
use std::alloc::Global;
use wasi_base::{MemSource, OutOfMemory, Source};
use wasi_script::{GeneratedSteps, Line, gen_input, gen_steps};

/// Runs a generated script on its input, and tells how many steps it has, how many bytes its
/// transcript has and how many bytes of the input no delivery read, each on a line.
pub(crate) fn report_generated(
    alloc: Global,
    number: u64,
    lines: u64,
) -> Result<Vec<u8>, OutOfMemory>
    requires { lines ≤ 100000 }
    ensures { IfOk result (λ text. text.items ≡ report number lines) }
{
    let input = gen_input(alloc, number, lines)?;
    let mut stdin = MemSource::new(input, Vec::new(alloc));
    let (count, printed) = count_run(alloc, gen_steps(number, lines), &mut stdin)?;
    let left = stdin.left().len();
    write_counts(alloc, count, printed, left as u64)
}

// runs all steps, and gives how many they are, and how many bytes the text of their replies and of
// the outputs has
fn count_run<I: Source>(
    alloc: Global,
    steps: GeneratedSteps,
    stdin: &mut I,
) -> Result<(u64, u128), OutOfMemory>
    requires stand { AllStand no_names steps }
    requires few { length steps ≤ 100005 }
    ensures count { IfOk result (λ counts. counts.0 ≡ length steps) }
    ensures printed { (t : Told) → I.told stdin.old ≡ Some t → IfOk result (λ counts. counts.1 ≡ length (transcript steps t)) }
    ensures told { (t : Told) → I.told stdin.old ≡ Some t → OnOk result (I.told stdin.new ≡ Some (told_after_run steps t)) }
{
    let mut session = Session::new(alloc)?;
    let mut text = Vec::new(alloc);
    let mut count = 0;
    let mut printed = 0;
    for line in steps {
        one_step(&mut session, line, stdin, &mut text)?;
        count += 1;
        printed += text.len() as u128;
    }
    text.clear();
    session.outputs(&mut text)?;
    Ok((count, printed + text.len() as u128))
}

// one step, whose reply's line alone is in the text after it
fn one_step<I: Source>(
    session: &mut Session,
    line: Line,
    stdin: &mut I,
    text: &mut Vec<u8>,
) -> Result<(), OutOfMemory>
    requires fits { Fits line session.old.host }
    requires count { session.old.host.shared.deliveries < 2 ^ 64 - 1 }
    ensures text { OnOk result (text.new.items ≡ reply_line (reply_to line session.old.host (given_now session.new.host.shared))) }
    ensures step { OnOk result (IsStep (I.told stdin.old) (I.told stdin.new) session.old.host session.new.host line (reply_to line session.old.host (given_now session.new.host.shared))) }
{
    text.clear();
    session.step(&line, stdin, text)
}

fn write_counts(alloc: Global, steps: u64, printed: u128, left: u64) -> Result<Vec<u8>, OutOfMemory>
    ensures { IfOk result (λ text. text.items ≡ count_lines steps printed left) }
{
    let mut text = Vec::new(alloc);
    push_count(&mut text, b"steps ", u128::from(steps))?;
    push_count(&mut text, b"printed ", printed)?;
    push_count(&mut text, b"left ", u128::from(left))?;
    Ok(text)
}

fn push_count(text: &mut Vec<u8>, label: &[u8], count: u128) -> Result<(), OutOfMemory>
    ensures { OnOk result (text.new.items ≡ text.old.items ++ count_line label.now count) }
{
    let mut buffer = Buffer::new();
    text.extend_from_slice(label)?;
    text.extend_from_slice(buffer.format(count).as_bytes())?;
    text.push(b'\n')?;
    Ok(())
}
