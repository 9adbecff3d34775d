ghost use Rattle.std.specs.Prelude.{◌≡◌, IfOk};
ghost use Rattle.wasi_cli.specs.Environment.{no_command_line};

use crate::{ArgList, CwdText, EnvList, InKind, OutKind};
use std::alloc::Global;
use wasi_base::OutOfMemory;

/// What a guest is told of its command line, and its standard streams.
#[derive(Drop)]
pub struct WasiCliCtx {
    pub environment: EnvList,
    pub arguments: ArgList,
    /// The directory in which the guest begins, where it has one.
    pub initial_cwd: Option<CwdText>,
    pub stdin: InKind,
    pub stdout: OutKind,
    pub stderr: OutKind,
}

impl WasiCliCtx {
    /// No environment, no arguments, no first directory, and empty streams. It takes no memory.
    pub fn default(alloc: Global) -> WasiCliCtx
        ensures { result ≡ no_command_line }
    {
        WasiCliCtx {
            environment: EnvList::new(Vec::new(alloc)),
            arguments: ArgList::new(Vec::new(alloc)),
            initial_cwd: None,
            stdin: InKind::Empty,
            stdout: OutKind::Empty,
            stderr: OutKind::Empty,
        }
    }

    /// A copy of the environment.
    pub fn get_environment(&self, alloc: Global) -> Result<EnvList, OutOfMemory>
        ensures { IfOk result (λ environment. environment ≡ self.now.environment) }
    {
        self.environment.copy(alloc)
    }

    /// A copy of the arguments.
    pub fn get_arguments(&self, alloc: Global) -> Result<ArgList, OutOfMemory>
        ensures { IfOk result (λ arguments. arguments ≡ self.now.arguments) }
    {
        self.arguments.copy(alloc)
    }

    /// A copy of the first directory, where there is one.
    pub fn initial_cwd(&self, alloc: Global) -> Result<Option<CwdText>, OutOfMemory>
        ensures { IfOk result (λ cwd. cwd ≡ self.now.initial_cwd) }
    {
        match &self.initial_cwd {
            Some(cwd) => {
                let copy = CwdText::from_str(alloc, cwd.as_str())?;
                Ok(Some(copy))
            }
            None => Ok(None),
        }
    }
}
