ghost use Rattle.std.specs.Prelude.{◌≡◌, IfOk, length};

use bytes::Bytes;
use std::alloc::Global;
use wasi_base::OutOfMemory;

/// The greatest number of bytes that are read from a source at once, and that an output over a
/// sink permits one write.
pub(crate) const MOST_BYTES: u64 = 65536;

/// A block of so many bytes.
pub(crate) fn block_of(alloc: Global, count: usize) -> Result<Vec<u8>, OutOfMemory>
    ensures { IfOk result (λ block. length block.items ≡ count) }
{
    Ok(vec![in alloc; 0u8; count]?)
}

/// The block as bytes to be shared. Where there is no memory to count its owners, it is never
/// given back: bytes that were read are not lost when out of memory.
pub(crate) fn shared_bytes(block: Vec<u8>) -> Bytes
    ensures { result ≡ block.items }
{
    match Bytes::from_vec(block) {
        Ok(bytes) => bytes,
        Err(failed) => Bytes::from_static(failed.value.leak()),
    }
}

/// Room for the bytes of a skip.
pub(crate) fn blank() -> [u8; 65536]
    ensures { length result ≡ 65536 }
{
    [0; 65536]
}
