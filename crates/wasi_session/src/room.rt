ghost use Rattle.std.specs.Prelude.{◌≡◌, IfOk, length};

use bytes::Bytes;
use std::alloc::Global;
use wasi_base::OutOfMemory;
use wasi_script::ByteString;

/// Room for so many bytes.
pub fn room_of(alloc: Global, count: usize) -> Result<Vec<u8>, OutOfMemory>
    ensures { IfOk result (λ room. length room.items ≡ count) }
{
    Ok(vec![in alloc; 0u8; count]?)
}

/// A script's bytes, to be handed on.
pub fn shared_bytes(alloc: Global, bytes: &ByteString) -> Result<Bytes, OutOfMemory>
    ensures { IfOk result (λ shared. shared ≡ bytes.now) }
{
    let bytes = bytes.to_vec(alloc)?;
    match Bytes::from_vec(bytes) {
        Ok(bytes) => Ok(bytes),
        Err(_) => Err(OutOfMemory),
    }
}
