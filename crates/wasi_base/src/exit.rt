ghost use Rattle.std.specs.Prelude.{Some};
ghost use Rattle.wasi_base.specs.TrapText.{exit_text};

use std::fmt;

/// The exit status with which a guest ends itself.
#[derive(Clone, Copy, Debug, PartialEq, Eq, Drop)]
pub struct I32Exit(pub i32);

impl fmt::Display for I32Exit {
    ghost output = { λ exit. Some (exit_text exit.0) };

    fn fmt<W: fmt::Write>(&self, f: &mut fmt::Formatter<W>) -> fmt::Result {
        let status = self.0;
        write!(f, "Exited with i32 exit status {status}")
    }
}

impl std::error::Error for I32Exit {}
