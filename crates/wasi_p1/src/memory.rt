ghost use Rattle.std.specs.Prelude.{◌≡◌, ◌≤◌, ◌++◌, take, drop, length, Ok, Err, if◌then◌else◌};
ghost use Rattle.std.specs.Borrow.{sem, Lends, Array, u8 as byte};
ghost use Rattle.wasi_p1.specs.Memory.{fits, with_bytes_at};
ghost use Rattle.wasi_p1.specs.contracts.memory.GuestMemory as guest;

use std::marker::Model;
use wasi_p1_types::p1::Errno;

/// A guest's memory, seen as its bytes.
#[derive(Drop)]
pub struct GuestMemory {
    bytes: Vec<u8>,
}

impl Model for GuestMemory {
    ghost use Rattle.std.specs.Prelude.{ℕ, List};

    ghost Value = { List ℕ };

    ghost view = { λ memory. memory.bytes.items };
}

impl GuestMemory {
    /// A memory of these bytes, of which there are at most 4294967296.
    pub fn new(bytes: Vec<u8>) -> GuestMemory
        requires { length bytes.items ≤ 4294967296 }
        ensures { result ≡ bytes.items }
    {
        GuestMemory { bytes }
    }

    pub fn bytes(&self) -> &[u8]
        ensures { result.now ≡ self.now }
    {
        self.bytes.as_slice()
    }

    pub fn bytes_mut(&mut self) -> &mut [u8]
        ensures* writes { sem 𝓛 (Lends guest.the_row (Array byte 0) self.entry result (λ w. take (length self.old) (w ++ drop (length w) self.old))) }
        ensures value { result.now ≡ self.old }
    {
        self.bytes.as_mut_slice()
    }

    /// Writes bytes from an address on: `Fault`, with nothing written, where they don't fit.
    pub(crate) fn write(&mut self, address: u32, bytes: &[u8]) -> Result<(), Errno>
        ensures answer { result ≡ (if fits address bytes.now self.old then Ok tt else Err Errno.Fault) }
        ensures memory { self.new ≡ with_bytes_at address bytes.now self.old }
    {
        let start = address as usize;
        let all = self.bytes.as_mut_slice();
        if all.len() < bytes.len() || all.len() - bytes.len() < start {
            return Err(Errno::Fault);
        }
        all[start..start + bytes.len()].copy_from_slice(bytes);
        Ok(())
    }
}
