ghost use Rattle.std.specs.Prelude.{◌≡◌, ◌<◌, length};
ghost use Rattle.wasi_host.specs.Random.{new_sources, with_source};
ghost use Rattle.wasi_random.specs.Known.{of_bytes, of_number};

use wasi_random::{Deterministic, KnownGenerator, seeded_rng};
use wasi_script::RandomSource;

/// The random sources of a context.
#[derive(Drop)]
pub struct Sources {
    pub secure: KnownGenerator,
    pub insecure: KnownGenerator,
}

impl Sources {
    /// Both are of the seed 0.
    pub fn new() -> Sources
        ensures { result ≡ new_sources }
    {
        Sources {
            secure: KnownGenerator::Seeded(seeded_rng(0)),
            insecure: KnownGenerator::Seeded(seeded_rng(0)),
        }
    }

    /// A source gives these bytes again and again from now on.
    pub fn repeat(&mut self, source: RandomSource, bytes: Vec<u8>)
        requires { 0 < length bytes.items }
        ensures { self.new ≡ with_source source (of_bytes bytes.items) self.old }
    {
        self.put(source, KnownGenerator::Cycle(Deterministic::new(bytes)));
    }

    /// A source is the generator of this seed from now on.
    pub fn seed(&mut self, source: RandomSource, seed: u64)
        ensures { self.new ≡ with_source source (of_number seed) self.old }
    {
        self.put(source, KnownGenerator::Seeded(seeded_rng(seed)));
    }

    fn put(&mut self, source: RandomSource, generator: KnownGenerator)
        ensures { self.new ≡ with_source source generator self.old }
    {
        match source {
            RandomSource::Secure => self.secure = generator,
            RandomSource::Insecure => self.insecure = generator,
        }
    }
}
