ghost use Rattle.std.specs.Prelude.{◌≡◌, ◌≤◌, ◌<◌, ◌/◌, ◌%◌, ◌^◌, min, length, IfOk, OnErr, IsOkUnless};
ghost use Rattle.rand_core.specs.Stream.{next_u64};
ghost use Rattle.wasi_random.specs.Draws.{Told, draws};
ghost use Rattle.wasi_random.specs.Generators.{stream_told};

use crate::{Generator, RandomBytes, RandomRefused, thread_rng};
use std::alloc::Global;
use wasi_base::{OutOfMemory, TrapText};

/// The most random bytes that a guest may ask for at a time, where nothing else is set: 64 MiB.
pub const DEFAULT_MAX_SIZE: u64 = 67_108_864;

/// The random sources of a context.
#[derive(Drop)]
pub struct WasiRandomCtx {
    pub random: Generator,
    pub insecure_random: Generator,
    pub insecure_random_seed: u128,
    /// The most random bytes that a guest may ask for at a time.
    pub max_size: u64,
}

/// Both generators are `thread_rng(0)`, the seed is 0, and the limit `DEFAULT_MAX_SIZE`.
impl Default for WasiRandomCtx {
    ghost use Rattle.std.specs.Prelude.{◌≡◌};
    ghost use Rattle.rand_chacha.specs.ChaCha.{of_seed};
    ghost use Rattle.wasi_random.specs.Generators.{seed_bytes};
    ghost use Rattle.wasi_random.specs.declared.generator.Generator.TheVariants.{Seeded};

    ghost is_default = { λ sources. sources ≡ record {
      random = Seeded (of_seed (seed_bytes 0));
      insecure_random = Seeded (of_seed (seed_bytes 0));
      insecure_random_seed = 0;
      max_size = 67_108_864;
    } };

    fn default() -> WasiRandomCtx {
        WasiRandomCtx {
            random: thread_rng(0),
            insecure_random: thread_rng(0),
            insecure_random_seed: 0,
            max_size: DEFAULT_MAX_SIZE,
        }
    }
}

/// How many bytes a guest of WASI 0.2 gets, as a length in memory.
fn allowed(len: u64, max_size: u64) -> Result<usize, RandomRefused>
    ensures beyond { max_size < len → result ≡ Err (RandomRefused.Trap (TrapText.RequestedLength len max_size)) }
    ensures within { len ≤ max_size → result ≡ Ok len }
{
    if len > max_size {
        return Err(RandomRefused::Trap(TrapText::RequestedLength {
            length: len,
            limit: max_size,
        }));
    }
    Ok(len as usize)
}

/// How many bytes a guest of WASI 0.3 gets, as a length in memory.
fn cut(len: u64, max_size: u64) -> usize
    ensures { result ≡ min len max_size }
{
    len.min(max_size) as usize
}

impl WasiRandomCtx {
    /// `len` secure bytes for a guest of WASI 0.2, which is trapped where they are more than the
    /// limit. A refusal draws nothing.
    pub fn get_random_bytes(
        &mut self,
        alloc: Global,
        len: u64,
    ) -> Result<RandomBytes, RandomRefused>
        ensures beyond { self.old.max_size < len
            → result ≡ Err (RandomRefused.Trap (TrapText.RequestedLength len self.old.max_size)) }
        ensures within { len ≤ self.old.max_size → IsOkUnless result RandomRefused.OutOfMemory }

        ensures counted { IfOk result (λ bytes. length bytes ≡ len) }
        ensures drawn { IfOk result (λ bytes. Told (stream_told self.old.random (λ rng. told rng))
            (stream_told self.new.random (λ rng. told rng)) (draws len) bytes) }

        ensures others { self.new ≡ record self.old { random = self.new.random } }
        ensures err { OnErr result (self.new ≡ self.old) }
    {
        let count = allowed(len, self.max_size)?;
        let bytes = self.random.next_bytes(alloc, count)?;
        Ok(bytes)
    }

    /// `len` insecure bytes for a guest of WASI 0.2, which is trapped where they are more than the
    /// limit. A refusal draws nothing.
    pub fn get_insecure_random_bytes(
        &mut self,
        alloc: Global,
        len: u64,
    ) -> Result<RandomBytes, RandomRefused>
        ensures beyond { self.old.max_size < len
            → result ≡ Err (RandomRefused.Trap (TrapText.RequestedLength len self.old.max_size)) }
        ensures within { len ≤ self.old.max_size → IsOkUnless result RandomRefused.OutOfMemory }

        ensures counted { IfOk result (λ bytes. length bytes ≡ len) }
        ensures drawn { IfOk result (λ bytes. Told (stream_told self.old.insecure_random (λ rng. told rng))
            (stream_told self.new.insecure_random (λ rng. told rng)) (draws len) bytes) }

        ensures others { self.new ≡ record self.old { insecure_random = self.new.insecure_random } }
        ensures err { OnErr result (self.new ≡ self.old) }
    {
        let count = allowed(len, self.max_size)?;
        let bytes = self.insecure_random.next_bytes(alloc, count)?;
        Ok(bytes)
    }

    /// `len` secure bytes for a guest of WASI 0.3, or as many as the limit where that is less.
    /// Where there is no memory, nothing is drawn.
    pub fn p3_get_random_bytes(
        &mut self,
        alloc: Global,
        len: u64,
    ) -> Result<RandomBytes, OutOfMemory>
        ensures counted { IfOk result (λ bytes. length bytes ≡ min len self.old.max_size) }
        ensures drawn { IfOk result (λ bytes. Told (stream_told self.old.random (λ rng. told rng))
            (stream_told self.new.random (λ rng. told rng)) (draws (min len self.old.max_size)) bytes) }

        ensures others { self.new ≡ record self.old { random = self.new.random } }
        ensures err { OnErr result (self.new ≡ self.old) }
    {
        let count = cut(len, self.max_size);
        self.random.next_bytes(alloc, count)
    }

    /// `len` insecure bytes for a guest of WASI 0.3, or as many as the limit where that is less.
    /// Where there is no memory, nothing is drawn.
    pub fn p3_get_insecure_random_bytes(
        &mut self,
        alloc: Global,
        len: u64,
    ) -> Result<RandomBytes, OutOfMemory>
        ensures counted { IfOk result (λ bytes. length bytes ≡ min len self.old.max_size) }
        ensures drawn { IfOk result (λ bytes. Told (stream_told self.old.insecure_random (λ rng. told rng))
            (stream_told self.new.insecure_random (λ rng. told rng)) (draws (min len self.old.max_size)) bytes) }

        ensures others { self.new ≡ record self.old { insecure_random = self.new.insecure_random } }
        ensures err { OnErr result (self.new ≡ self.old) }
    {
        let count = cut(len, self.max_size);
        self.insecure_random.next_bytes(alloc, count)
    }

    /// 64 secure bits.
    pub fn get_random_u64(&mut self) -> u64
        ensures drawn { Told (stream_told self.old.random (λ rng. told rng))
            (stream_told self.new.random (λ rng. told rng)) next_u64 result }
        ensures others { self.new ≡ record self.old { random = self.new.random } }
    {
        self.random.next_u64()
    }

    /// 64 insecure bits.
    pub fn get_insecure_random_u64(&mut self) -> u64
        ensures drawn { Told (stream_told self.old.insecure_random (λ rng. told rng))
            (stream_told self.new.insecure_random (λ rng. told rng)) next_u64 result }
        ensures others { self.new ≡ record self.old { insecure_random = self.new.insecure_random } }
    {
        self.insecure_random.next_u64()
    }

    /// The seed for a guest's insecure uses: its low 64 bits, and then its high ones.
    pub fn insecure_seed(&self) -> (u64, u64)
        ensures { result ≡ (self.now.insecure_random_seed % 2 ^ 64, self.now.insecure_random_seed / 2 ^ 64) }
    {
        let seed = self.insecure_random_seed;
        ((seed & 0xffff_ffff_ffff_ffff) as u64, (seed >> 64) as u64)
    }
}
