//! Tells where the first line of a script that is not valid is wrong, and why. The script is
//! standard input.
#![tactic(auto)]

use std::env;
use std::process::ExitCode;
use thiserror::Error;
use wasi_base::{OutOfMemory, StdSource};
use wasi_commands::{ReadError, read_script};
use wasi_explain::explain;

/// Why nothing is told of a script.
#[derive(Debug, Drop, Error)]
enum Failure {
    #[error("usage: wasi_why < SCRIPT")]
    Usage,
    #[error("read fault")]
    ReadFault,
    #[error("script too long")]
    TooLong,
    #[error("write fault")]
    WriteFault,
    #[error("out of memory")]
    OutOfMemory,
}

impl From<OutOfMemory> for Failure {
    fn from(_: OutOfMemory) -> Failure {
        Failure::OutOfMemory
    }
}

impl From<ReadError> for Failure {
    fn from(error: ReadError) -> Failure {
        match error {
            ReadError::Fault => Failure::ReadFault,
            ReadError::TooLong => Failure::TooLong,
            ReadError::OutOfMemory => Failure::OutOfMemory,
        }
    }
}

impl Failure {
    fn status(&self) -> u8 {
        match self {
            Failure::Usage => 2,
            Failure::ReadFault => 3,
            Failure::TooLong => 4,
            Failure::WriteFault => 6,
            Failure::OutOfMemory => 7,
        }
    }
}

fn has_no_words(rt: &HostRuntime) -> bool {
    match env::args(rt) {
        Ok(words) => words.len() <= 1,
        Err(_) => false,
    }
}

// Whether the script is valid. Where it is not, its first bad line is printed.
fn tell(rt: &HostRuntime) -> Result<bool, Failure> {
    if !has_no_words(rt) {
        return Err(Failure::Usage);
    }
    let script = read_script(rt.alloc(), &mut StdSource::new(rt.stdin()))?;
    match explain(rt.alloc(), &script)? {
        None => Ok(true),
        Some(bad_line) => match println!(rt; "{bad_line}") {
            Ok(()) => Ok(false),
            Err(_) => Err(Failure::WriteFault),
        },
    }
}

/// The exit status is 0 for a valid script, and then nothing is printed; 2 where words are given; 3
/// where reading failed; 4 for a script of more than 16777216 bytes; 5 for a script with a line that
/// is not valid, and then that line's place is printed and what is wrong; 6 where printing failed; 7
/// where memory ran out.
fn main(rt: HostRuntime) -> ExitCode {
    match tell(&rt) {
        Ok(true) => ExitCode::from(0),
        Ok(false) => ExitCode::from(5),
        Err(failure) => {
            let _ = eprintln!(rt; "{failure}");
            ExitCode::from(failure.status())
        }
    }
}
