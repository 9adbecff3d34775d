ghost use Rattle.std.specs.Prelude.{◌≡◌, ◌<◌, ◌≤◌, ℕ, length, IfOk, OnErr};
ghost use Rattle.wasi_base.specs.Causes.{Rose};
ghost use Rattle.wasi_fs.specs.Stores.{given, after_read};

use bytes::Bytes;
use std::alloc::Global;
use wasi_base::OutOfMemory;
use wasi_fs::Store;
use wasi_fs_types::ErrorCode;

fn block_of(alloc: Global, count: usize) -> Result<Vec<u8>, OutOfMemory>
    ensures { IfOk result (λ block. length block.items ≡ count) }
{
    Ok(vec![in alloc; 0u8; count]?)
}

// Bytes that were read are not lost where there is no memory to count their owners: the block is
// then never given back.
fn shared_bytes(block: Vec<u8>) -> Bytes
    ensures { result ≡ block.items }
{
    match Bytes::from_vec(block) {
        Ok(bytes) => bytes,
        Err(failed) => Bytes::from_static(failed.value.leak()),
    }
}

/// One read of a store into memory that is taken before.
pub(crate) fn fetch<T: Store>(
    alloc: Global,
    store: &mut T,
    file: u64,
    offset: u64,
    room: usize,
) -> Result<Result<Bytes, ErrorCode>, OutOfMemory>
    requires { T.is_file store.old file }
    ensures gives { IfOk result (λ outcome. outcome ≡ given (T.told store.old) (T.contents store.old file) offset room) }
    ensures leaves { IfOk result (λ outcome. store.new ≡ after_read T.met store.old (given (T.told store.old) (T.contents store.old file) offset room)) }
    ensures cause { IfOk result (λ outcome. OnErr outcome (Rose (T.told store.old).faults (T.told store.new).faults)) }
    ensures same { (f : ℕ) → T.contents store.new f ≡ T.contents store.old f }
    ensures files { (f : ℕ) → T.is_file store.old f → T.is_file store.new f }
    ensures later { (T.told store.old).faults ≤ (T.told store.new).faults }
    ensures memory { OnErr result (store.new ≡ store.old) }
{
    let mut block = match block_of(alloc, room) {
        Ok(block) => block,
        Err(error) => return Err(error),
    };
    match store.read_at(file, offset, block.as_mut_slice()) {
        Ok(count) => {
            block.truncate(count);
            Ok(Ok(shared_bytes(block)))
        }
        Err(code) => Ok(Err(code)),
    }
}
