ghost use Rattle.std.specs.Prelude.{◌≡◌, ◌+◌, ◌-◌, ◌<◌, ◌≤◌, [], ◌∷◌, ◌++◌, length, take, drop, slice_get, IfOk, OnOk, OnErr};
ghost use Rattle.wasi_pipeline.specs.Link.{LinkState};

use circular_buffer::HeapCircularBuffer;
use std::alloc::Global;
use std::marker::Model;
use wasi_base::OutOfMemory;

/// A link between two stages: it holds a bounded number of bytes, in order.
#[derive(Drop)]
pub struct Link {
    ring: HeapCircularBuffer<u8>,
}

impl Model for Link {
    ghost use Rattle.std.specs.Prelude.{◌≤◌, length};
    ghost use Rattle.wasi_pipeline.specs.Link.{LinkState};

    ghost Value = { LinkState };

    ghost view = { λ link. record { bound = link.ring.capacity; held = link.ring.items } };

    ghost invariant = { λ link. record {
      least : 2 ≤ link.ring.capacity;
      most : link.ring.capacity ≤ 65536;
      within : length link.ring.items ≤ link.ring.capacity;
    } };
}

impl Link {
    /// An empty link that holds at most `bound` bytes, from 2 to 65536. Takes the memory of all
    /// later calls.
    pub fn new(alloc: Global, bound: u32) -> Result<Link, OutOfMemory>
        requires least { 2 ≤ bound }
        requires most { bound ≤ 65536 }
        ensures { IfOk result (λ link. link ≡ record { bound = bound; held = [] }) }
    {
        let ring = HeapCircularBuffer::with_capacity(alloc, bound as usize)?;
        Ok(Link { ring })
    }

    /// How many bytes more it can hold.
    pub fn room(&self) -> u32
        ensures room { result ≡ self.now.bound - length self.now.held }
        ensures within { length self.now.held ≤ self.now.bound }
        ensures most { self.now.bound ≤ 65536 }
    {
        (self.ring.capacity() - self.ring.len()) as u32
    }

    /// How many bytes it holds.
    pub fn held(&self) -> u32
        ensures held { result ≡ length self.now.held }
        ensures within { result ≤ self.now.bound }
        ensures most { self.now.bound ≤ 65536 }
    {
        self.ring.len() as u32
    }

    /// Puts a byte behind those that are held. There must be room for it.
    pub fn put(&mut self, byte: u8)
        requires { length self.old.held < self.old.bound }
        ensures { self.new ≡ record { bound = self.old.bound; held = self.old.held ++ byte ∷ [] } }
    {
        if self.ring.try_push_back(byte).is_err() {
            unreachable!();
        }
    }

    /// Takes the first byte out; none where the link is empty.
    pub fn take(&mut self) -> Option<u8>
        ensures value { result ≡ slice_get self.old.held 0 }
        ensures rest { self.new ≡ record { bound = self.old.bound; held = drop 1 self.old.held } }
    {
        self.ring.pop_front()
    }

    /// The first byte, which stays.
    pub(crate) fn front(&self) -> Option<u8>
        ensures { result ≡ slice_get self.now.held 0 }
    {
        self.ring.front().copied()
    }

    /// Takes the first bytes out, at most so many. Out of memory leaves the link as it was.
    pub(crate) fn take_first(&mut self, alloc: Global, most: u32) -> Result<Vec<u8>, OutOfMemory>
        ensures ok { IfOk result (λ bytes. bytes.items ≡ take most self.old.held) }
        ensures rest { OnOk result (self.new ≡ record { bound = self.old.bound; held = drop most self.old.held }) }
        ensures err { OnErr result (self.new ≡ self.old) }
    {
        let count = most.min(self.held());
        let mut bytes = vec![in alloc; 0u8; count as usize]?;
        self.take_into(&mut bytes);
        Ok(bytes)
    }

    /// Takes the first bytes out, as many as there is room for here. It must hold so many.
    pub(crate) fn take_into(&mut self, bytes: &mut [u8])
        requires { length bytes.old ≤ length self.old.held }
        ensures bytes { bytes.new ≡ take (length bytes.old) self.old.held }
        ensures rest { self.new ≡ record { bound = self.old.bound; held = drop (length bytes.old) self.old.held } }
    {
        self.ring.read_into(bytes);
    }

    /// Puts bytes behind those that are held. There must be room for all of them.
    pub(crate) fn put_all(&mut self, bytes: &[u8])
        requires { length self.old.held + length bytes.now ≤ self.old.bound }
        ensures { self.new ≡ record { bound = self.old.bound; held = self.old.held ++ bytes.now } }
    {
        self.ring.fill_from_slice(bytes);
    }
}
