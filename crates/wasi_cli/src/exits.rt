ghost use Rattle.std.specs.Prelude.{◌≡◌, pos, OnOk, OnErr};

use wasi_base::I32Exit;

/// The exit of a guest that ends itself well, with status 0, or badly, with status 1.
pub fn exit(status: Result<(), ()>) -> I32Exit
    ensures well { OnOk status (result.0 ≡ pos 0) }
    ensures badly { OnErr status (result.0 ≡ pos 1) }
{
    match status {
        Ok(()) => I32Exit(0),
        Err(()) => I32Exit(1),
    }
}

/// The exit of a guest that ends itself with a status of its own.
pub fn exit_with_code(code: u8) -> I32Exit
    ensures { result.0 ≡ pos code }
{
    I32Exit(i32::from(code))
}
