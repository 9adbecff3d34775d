//! What programs that run a script share: the script read to its limit, its run, and the outcome
//! told by a line and a status.
#![tactic(auto)]

mod command;
mod program;
mod read;
mod telling;
mod words;

pub use command::run_command;
pub use program::{Program, ProgramError, RunError, run_script};
pub use read::{ReadError, read_script};
pub use telling::{finish, is_word, tell, tell_bad_script};
pub use words::{command_words, file_named};
