ghost use Rattle.std.specs.Prelude.{◌≡◌, ◌≤◌, ◌-◌, length, take, drop, cond, is_some, None, OnOk, OnErr};
ghost use Rattle.wasi_fs.specs.MemStores.{one_file_told, one_file_after_fault, one_file_with};
ghost use Rattle.wasi_fs.specs.Stores.{fault_of, is_too_low, bytes_after};
ghost use Rattle.wasi_fs.specs.laws.Bound.{one_file_bound};
ghost use Rattle.wasi_fs_nodes.specs.Writes.{place_in, write_from};

use crate::store::Store;
use std::marker::Model;
use wasi_base::{IoKind, OutOfMemory};
use wasi_fs_nodes::{At, StoreError, read_bytes, write_bytes};
use wasi_fs_types::ErrorCode;

/// A store of one file in memory, which every number names. It has no limits.
#[derive(Drop)]
pub struct MemStore {
    /// The offset of the file's first byte. A lower one is a fault.
    pub base: u64,
    /// The file's bytes.
    pub bytes: Vec<u8>,
    /// How many faults were met, as far as 64 bits count.
    pub faults: u64,
    /// The fault that the next call meets.
    pub fail_next: Option<IoKind>,
}

impl Model for MemStore {
    ghost use Rattle.wasi_fs.specs.MemStores.{OneFile};

    ghost Value = { OneFile };

    ghost view = { λ store. record { base = store.base; bytes = store.bytes.items; faults = store.faults; fail_next = store.fail_next } };
}

impl MemStore {
    fn is_too_low(&self, at: At) -> bool
        ensures { result ≡ is_too_low self.now.base at }
    {
        match at {
            At::End => false,
            At::Offset(offset) => offset < self.base,
        }
    }

    fn place(&self, at: At) -> u64
        ensures { result ≡ place_in self.now.base (length self.now.bytes) at }
    {
        match at {
            At::End => self.bytes.len() as u64,
            At::Offset(offset) => offset.saturating_sub(self.base),
        }
    }

    fn planned(&self) -> Option<IoKind>
        ensures { result ≡ self.now.fail_next }
    {
        self.fail_next
    }

    fn count_fault(&mut self)
        ensures after { self.new ≡ one_file_after_fault self.old }
        ensures later { self.old.faults ≤ self.new.faults }
    {
        self.fail_next = None;
        self.faults = self.faults.saturating_add(1);
    }

    /// The code of the fault that a call meets, if it meets one, which is then gone and counted.
    fn meet_fault(&mut self, is_too_low: bool) -> Option<ErrorCode>
        ensures code { result ≡ fault_of self.old.fail_next is_too_low }
        ensures after { self.new ≡ cond (is_some result) (one_file_after_fault self.old) self.old }
        ensures later { self.old.faults ≤ self.new.faults }
    {
        let code = match self.planned() {
            Some(kind) => ErrorCode::from(kind),
            None => {
                if !is_too_low {
                    return None;
                }
                ErrorCode::Invalid
            }
        };
        self.count_fault();
        Some(code)
    }

    fn read_from(&self, place: u64, buf: &mut [u8]) -> usize
        ensures within { result ≤ length buf.new }
        ensures given { take result buf.new ≡ take (length buf.old) (drop place self.now.bytes) }
        ensures behind { drop result buf.new ≡ drop result buf.old }
    {
        read_bytes(self.bytes.as_slice(), place, buf)
    }

    /// Bytes from a place on. An end past what memory can hold is out of memory.
    fn write_from(&mut self, place: u64, bytes: &[u8]) -> Result<(), OutOfMemory>
        ensures ok { OnOk result (self.new ≡ one_file_with self.old (bytes_after self.old.bytes (write_from None self.old.bytes place bytes.now))) }
        ensures err { OnErr result (self.new ≡ self.old) }
    {
        if bytes.is_empty() {
            return Ok(());
        }
        if bytes.len() as u64 > u64::MAX - place {
            return Err(OutOfMemory);
        }
        match write_bytes(&mut self.bytes, place as usize, bytes) {
            Ok(()) => Ok(()),
            Err(_) => Err(OutOfMemory),
        }
    }
}

impl Store for MemStore {
    ghost use Rattle.std.specs.Prelude.{⊤};

    ghost told = { one_file_told };

    ghost is_file = { λ store number. ⊤ };

    ghost contents = { λ store number. store.bytes };

    ghost file_of = { λ number. 0 };

    ghost met = { one_file_after_fault };

    ghost with_contents = { λ store number now. one_file_with store now };

    ghost bound = { one_file_bound };

    fn read_at(&mut self, _file: u64, offset: u64, buf: &mut [u8]) -> Result<usize, ErrorCode> {
        let at = At::Offset(offset);
        let is_too_low = self.is_too_low(at);
        if let Some(code) = self.meet_fault(is_too_low) {
            return Err(code);
        }
        Ok(self.read_from(self.place(at), buf))
    }

    fn write_at(&mut self, _file: u64, at: At, bytes: &[u8]) -> Result<usize, StoreError> {
        let is_too_low = self.is_too_low(at);
        if let Some(code) = self.meet_fault(is_too_low) {
            return Err(StoreError::Code(code));
        }
        let place = self.place(at);
        match self.write_from(place, bytes) {
            Ok(()) => Ok(bytes.len()),
            Err(_) => Err(StoreError::OutOfMemory),
        }
    }
}
