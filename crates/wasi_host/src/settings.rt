use wasi_cli::{ArgList, CwdText, EnvList};
use wasi_script::{Input, Output};

/// What configuration lines say of a context of a guest, which no call changes.
#[derive(Drop)]
pub struct Settings {
    pub input: Input,
    pub stdout: Output,
    pub stderr: Output,
    pub environment: EnvList,
    pub arguments: ArgList,
    /// The directory in which it begins, where it has one.
    pub initial_cwd: Option<CwdText>,
    /// The seed for its insecure uses of random numbers.
    pub insecure_seed: u128,
    /// The most random bytes that it may ask for at a time.
    pub most_random: u64,
}
