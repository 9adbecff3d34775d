ghost use Rattle.std.specs.Prelude.{◌≡◌, length, IfOk, OnErr, Option};
ghost use Rattle.rand_core.specs.Stream.{Stream, next_u32, next_u64};
ghost use Rattle.rand.specs.Draw.{next_u8};
ghost use Rattle.rand_chacha.specs.ChaCha.{of_seed};
ghost use Rattle.wasi_random.specs.Draws.{Told, draws};
ghost use Rattle.wasi_random.specs.Generators.{stream_told, seed_bytes};

use crate::{Deterministic, RandomBytes};
use rand::RngExt;
use rand_chacha::ChaCha20Rng;
use rand_core::{Rng, SeedableRng};
use std::alloc::Global;
use wasi_base::OutOfMemory;

/// A generator of the caller's.
pub trait HostRng: Drop {
    // All that it will answer from now on, where it tells it.
    ghost told: { Self → Option Stream };

    /// The next 32 bits.
    fn next_u32(&mut self) -> u32
        ensures { Told (told self.old) (told self.new) next_u32 result };

    /// The next 64 bits.
    fn next_u64(&mut self) -> u64
        ensures { Told (told self.old) (told self.new) next_u64 result };
}

/// Where random numbers come from.
#[derive(Drop)]
pub enum Generator {
    /// The same bytes again and again.
    Cycle(Deterministic),
    /// ChaCha with 20 rounds.
    Seeded(ChaCha20Rng),
    /// The caller's.
    Caller(Box<dyn HostRng + Send>),
}

/// ChaCha with 20 rounds, whose seed is the number's 8 bytes, the lowest first, and then 24 zero
/// bytes. No system's randomness is in it.
pub fn seeded_rng(seed: u64) -> ChaCha20Rng
    ensures { result ≡ of_seed (seed_bytes seed) }
{
    let mut bytes = [0u8; 32];
    bytes[..8].copy_from_slice(&seed.to_le_bytes());
    ChaCha20Rng::from_seed(bytes)
}

/// A generator that a number decides: `seeded_rng` of it.
pub fn thread_rng(seed: u64) -> Generator
    ensures { result ≡ Generator.Seeded (of_seed (seed_bytes seed)) }
{
    Generator::Seeded(seeded_rng(seed))
}

fn next_word_of(rng: &mut Box<dyn HostRng + Send>) -> u32
    ensures { Told (told rng.old) (told rng.new) next_u32 result }
{
    rng.next_u32()
}

/// The low byte of the next 32 bits of the caller's generator.
fn next_byte_of(rng: &mut Box<dyn HostRng + Send>) -> u8
    ensures { Told (told rng.old) (told rng.new) next_u8 result }
{
    (next_word_of(rng) & 0xff) as u8
}

impl Generator {
    /// The low byte of the next 32 bits.
    fn next_byte(&mut self) -> u8
        ensures { Told (stream_told self.old (λ rng. told rng)) (stream_told self.new (λ rng. told rng)) next_u8 result }
    {
        match self {
            Generator::Cycle(rng) => rng.random::<u8>(),
            Generator::Seeded(rng) => rng.random::<u8>(),
            Generator::Caller(rng) => next_byte_of(rng),
        }
    }

    /// The next 64 bits.
    pub(crate) fn next_u64(&mut self) -> u64
        ensures { Told (stream_told self.old (λ rng. told rng)) (stream_told self.new (λ rng. told rng)) next_u64 result }
    {
        match self {
            Generator::Cycle(rng) => rng.next_u64(),
            Generator::Seeded(rng) => rng.next_u64(),
            Generator::Caller(rng) => rng.next_u64(),
        }
    }

    /// `count` bytes, each the low byte of 32 bits. The memory is taken before the first draw.
    pub(crate) fn next_bytes(
        &mut self,
        alloc: Global,
        count: usize,
    ) -> Result<RandomBytes, OutOfMemory>
        ensures counted { IfOk result (λ bytes. length bytes ≡ count) }
        ensures drawn { IfOk result (λ bytes.
            Told (stream_told self.old (λ rng. told rng)) (stream_told self.new (λ rng. told rng)) (draws count) bytes) }
        ensures err { OnErr result (self.new ≡ self.old) }
    {
        let mut bytes = Vec::with_capacity(alloc, count)?;
        for _i in 0..count {
            bytes.push_reserved(self.next_byte());
        }
        Ok(RandomBytes::new(bytes))
    }
}
