ghost use Rattle.std.specs.Prelude.{◌≡◌, IfOk};
ghost use Rattle.wasi_host.specs.Calls.{cwd_told, is_terminal, terminal_entry, opened_terminal};

use std::alloc::Global;
use wasi_base::{OutOfMemory, Text};
use wasi_cli::{TerminalInput, TerminalOutput};
use wasi_host::{Deed, Entry, OwnEntry, Settings};
use wasi_reply::{TextPairs, Texts, Told};
use wasi_script::{Input, Output, Standard};

/// A copy of a guest's environment.
pub fn environment_told(alloc: Global, settings: &Settings) -> Result<Told, OutOfMemory>
    ensures { IfOk result (λ told. told ≡ Told.Environment settings.now.environment) }
{
    let environment = settings.environment.copy(alloc)?;
    Ok(Told::Environment(TextPairs::new(environment.into_vec())))
}

/// .. of its arguments.
pub fn arguments_told(alloc: Global, settings: &Settings) -> Result<Told, OutOfMemory>
    ensures { IfOk result (λ told. told ≡ Told.Arguments settings.now.arguments) }
{
    let arguments = settings.arguments.copy(alloc)?;
    Ok(Told::Arguments(Texts::new(arguments.into_vec())))
}

/// .. and of the directory in which it begins, where it has one.
pub fn cwd_told(alloc: Global, settings: &Settings) -> Result<Told, OutOfMemory>
    ensures { IfOk result (λ told. told ≡ cwd_told settings.now.initial_cwd) }
{
    match &settings.initial_cwd {
        Some(cwd) => {
            let cwd = Text::from_str(alloc, cwd.as_str())?;
            Ok(Told::Cwd(cwd))
        }
        None => Ok(Told::Absent),
    }
}

/// What a guest that asks for the terminal of one of its standard streams is given.
pub fn opened_terminal(settings: &Settings, stream: Standard) -> Deed
    ensures { result ≡ opened_terminal stream settings.now }
{
    if is_terminal(settings, stream) {
        Deed::Make {
            entry: Entry::Own(terminal_entry(stream)),
            parent: None,
        }
    } else {
        Deed::Tell(Told::Absent)
    }
}

fn is_terminal(settings: &Settings, stream: Standard) -> bool
    ensures { result ≡ is_terminal stream settings.now }
{
    match stream {
        Standard::Input => matches!(settings.input, Input::Terminal),
        Standard::Output => matches!(settings.stdout, Output::Terminal(_)),
        Standard::Error => matches!(settings.stderr, Output::Terminal(_)),
    }
}

fn terminal_entry(stream: Standard) -> OwnEntry
    ensures { result ≡ terminal_entry stream }
{
    match stream {
        Standard::Input => OwnEntry::TerminalInput(TerminalInput),
        Standard::Output | Standard::Error => OwnEntry::TerminalOutput(TerminalOutput),
    }
}
