mod inputs;
mod items;
mod outputs;

use crate::CliErrorCode;
use std::process::Abort;
use std::test::Fail;
use wasi_cli::Owner;

const GUEST: Owner = Owner {
    guest: 0,
    number: 0,
};

fn shows(rt: &impl Abort, code: CliErrorCode, word: &str) {
    assert!(rt; code.name() == word);
}

#[test]
fn codes_have_their_words(rt: HostRuntime) -> Result<(), Fail> {
    shows(&rt, CliErrorCode::Io, "io");
    shows(&rt, CliErrorCode::Pipe, "pipe");
    shows(
        &rt,
        CliErrorCode::IllegalByteSequence,
        "illegal-byte-sequence",
    );
    let text = format!(in rt.alloc(); "{}", CliErrorCode::Pipe)?;
    assert!(&rt; text.as_str() == "pipe");
    Ok(())
}
