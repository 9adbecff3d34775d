ghost use Rattle.std.specs.Prelude.{◌≡◌, ◌≤◌, ◌+◌, ◌%◌, ◌^◌, ◌++◌, take, vec_len, vec_capacity, IfOk, OnErr};
ghost use Rattle.rand_core.specs.Steps.{u64_via_u32};
ghost use Rattle.rand_chacha.specs.ChaCha.{next_word};
ghost use Rattle.wasi_random.specs.Known.{known_u64, known_bytes, next_words, DrawsAreOfTheStream};

use crate::{Deterministic, RandomBytes};
use rand_chacha::ChaCha20Rng;
use rand_core::Rng;
use rand_core::utils::NextWord;
use std::alloc::Global;
use wasi_base::OutOfMemory;

/// A generator whose draws are all known: they follow from what it was made of and from how much
/// was drawn before.
#[derive(Drop)]
pub enum KnownGenerator {
    /// The same bytes again and again.
    Cycle(Deterministic),
    /// ChaCha with 20 rounds.
    Seeded(ChaCha20Rng),
}

// How many words of ChaCha are drawn at a time.
const BATCH: usize = 64;

fn low_byte(word: u32) -> u8
    ensures { result ≡ word % 2 ^ 8 }
{
    (word & 0xff) as u8
}

// The next words, at most a batch. This is the one place that steps ChaCha, so that the step is
// inlined here, and the place in its block is kept in a register from word to word.
#[inline(never)]
fn draw_words(rng: &mut ChaCha20Rng, count: usize) -> [u32; BATCH]
    requires { count ≤ 64 }
    ensures { (take count result, rng.new) ≡ next_words count rng.old }
{
    let mut words = [0; BATCH];
    for i in 0..count {
        words[i] = rng.next_word();
    }
    words
}

fn draw_double(rng: &mut ChaCha20Rng) -> u64
    ensures { (result, rng.new) ≡ u64_via_u32 (next_word 10) rng.old }
{
    let words = draw_words(rng, 2);
    (u64::from(words[1]) << 32) | u64::from(words[0])
}

fn push_batch(rng: &mut ChaCha20Rng, count: usize, bytes: &mut Vec<u8>)
    requires batch { count ≤ 64 }
    requires room { vec_len bytes.old + count ≤ vec_capacity bytes.old }
    ensures bytes { bytes.new.items ≡ bytes.old.items ++ (known_bytes count (KnownGenerator.Seeded rng.old)).0 }
    ensures left { KnownGenerator.Seeded rng.new ≡ (known_bytes count (KnownGenerator.Seeded rng.old)).1 }
    ensures len { vec_len bytes.new ≡ vec_len bytes.old + count }
    ensures capacity { vec_capacity bytes.new ≡ vec_capacity bytes.old }
{
    let words = draw_words(rng, count);
    for word in &words[..count] {
        bytes.push_reserved(low_byte(*word));
    }
}

fn draw_seeded(alloc: Global, rng: &mut ChaCha20Rng, count: usize) -> Result<Vec<u8>, OutOfMemory>
    ensures drawn { IfOk result (λ bytes. (bytes.items, KnownGenerator.Seeded rng.new) ≡ known_bytes count (KnownGenerator.Seeded rng.old)) }
    ensures err { OnErr result (rng.new ≡ rng.old) }
{
    let mut bytes = Vec::with_capacity(alloc, count)?;
    'batches: while bytes.len() < count {
        let batch = (count - bytes.len()).min(BATCH);
        push_batch(rng, batch, &mut bytes);
    }
    Ok(bytes)
}

fn draw_cycle(alloc: Global, rng: &mut Deterministic, count: usize) -> Result<Vec<u8>, OutOfMemory>
    ensures drawn { IfOk result (λ bytes. (bytes.items, KnownGenerator.Cycle rng.new) ≡ known_bytes count (KnownGenerator.Cycle rng.old)) }
    ensures err { OnErr result (rng.new ≡ rng.old) }
{
    let mut bytes = Vec::with_capacity(alloc, count)?;
    for _i in 0..count {
        bytes.push_reserved(low_byte(rng.next_u32()));
    }
    Ok(bytes)
}

impl KnownGenerator {
    /// The next 64 bits.
    pub fn next_u64(&mut self) -> u64
        ensures { (result, self.new) ≡ known_u64 self.old }
    {
        match self {
            KnownGenerator::Cycle(rng) => rng.next_u64(),
            KnownGenerator::Seeded(rng) => draw_double(rng),
        }
    }

    /// `count` bytes, each the low byte of 32 bits. The memory is taken before the first draw.
    pub fn next_bytes(&mut self, alloc: Global, count: usize) -> Result<RandomBytes, OutOfMemory>
        ensures drawn { IfOk result (λ bytes. (bytes, self.new) ≡ known_bytes count self.old) }
        ensures err { OnErr result (self.new ≡ self.old) }
    {
        let bytes = match self {
            KnownGenerator::Cycle(rng) => draw_cycle(alloc, rng, count)?,
            KnownGenerator::Seeded(rng) => draw_seeded(alloc, rng, count)?,
        };
        Ok(RandomBytes::new(bytes))
    }
}

/// A law: each draw of a known generator is the one that `rand_core` says of its stream.
pub fn known_draws_are_of_the_stream()
    ensures { DrawsAreOfTheStream }
{}
