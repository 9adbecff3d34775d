ghost use Rattle.std.specs.Prelude.{◌≡◌, ◌<◌, length};
ghost use Rattle.rand_core.specs.Stream.{next_u32, next_u64, fill_bytes};
ghost use Rattle.rand_core.specs.Steps.{stream_of};
ghost use Rattle.wasi_random.specs.Cycle.{cycle_steps, next_byte, next_word, next_double, next_bytes, IsAgainAndAgain};

use rand_core::Rng;
use std::marker::Model;

/// A generator that gives its bytes again and again.
#[derive(Drop)]
pub struct Deterministic {
    bytes: Vec<u8>,
    // The place in `bytes` of the byte that comes next.
    place: usize,
}

impl Model for Deterministic {
    ghost use Rattle.std.specs.Prelude.{◌<◌, length};
    ghost use Rattle.wasi_random.specs.Cycle.{Cycle};

    ghost Value = { Cycle };

    ghost view = { λ a. record { bytes = a.bytes.items; place = a.place } };

    ghost invariant = { λ a. a.place < length a.bytes.items };
}

impl Deterministic {
    /// The generator of these bytes, of which there is one at least.
    pub fn new(bytes: Vec<u8>) -> Deterministic
        requires { 0 < length bytes.items }
        ensures { result ≡ record { bytes = bytes.items; place = 0 } }
    {
        Deterministic { bytes, place: 0 }
    }

    fn next_byte(&mut self) -> u8
        ensures { (result, self.new) ≡ next_byte self.old }
    {
        let byte = self.bytes[self.place];
        self.place = (self.place + 1) % self.bytes.len();
        byte
    }

    /// Four bytes, the first the highest.
    fn next_word(&mut self) -> u32
        ensures { (result, self.new) ≡ next_word self.old }
    {
        let first = self.next_byte();
        let second = self.next_byte();
        let third = self.next_byte();
        let fourth = self.next_byte();
        u32::from_be_bytes([first, second, third, fourth])
    }

    /// Two words, the first the high half.
    fn next_double(&mut self) -> u64
        ensures { (result, self.new) ≡ next_double self.old }
    {
        let high = self.next_word();
        let low = self.next_word();
        (u64::from(high) << 32) + u64::from(low)
    }

    fn fill(&mut self, buffer: &mut [u8])
        ensures { (buffer.new, self.new) ≡ next_bytes (length buffer.old) self.old }
    {
        for byte in buffer.iter_mut() {
            *byte = self.next_byte();
        }
    }
}

impl Rng for Deterministic {
    ghost stream = { stream_of cycle_steps };

    /// Four bytes, the first the highest.
    fn next_u32(&mut self) -> u32
        ensures drawn { (result, stream_of cycle_steps self.new) ≡ next_u32 (stream_of cycle_steps self.old) }
        ensures given { (result, self.new) ≡ next_word self.old }
    {
        self.next_word()
    }

    /// Eight bytes, the first the highest.
    fn next_u64(&mut self) -> u64
        ensures drawn { (result, stream_of cycle_steps self.new) ≡ next_u64 (stream_of cycle_steps self.old) }
        ensures given { (result, self.new) ≡ next_double self.old }
    {
        self.next_double()
    }

    /// Byte after byte, and after the last one the first again.
    fn fill_bytes(&mut self, dst: &mut [u8])
        ensures drawn { (dst.new, stream_of cycle_steps self.new) ≡ fill_bytes (length dst.old) (stream_of cycle_steps self.old) }
        ensures given { (dst.new, self.new) ≡ next_bytes (length dst.old) self.old }
        ensures again { IsAgainAndAgain self.old dst.new }
    {
        let _ = &self.place;
        self.fill(dst)
    }
}
