//! The random sources of a host: generators that can be chosen, and the context that draws from a
//! secure one and an insecure one.
#![tactic(auto)]

mod bytes;
mod context;
mod deterministic;
mod generator;
mod known;
#[cfg(test)]
mod tests;

pub use bytes::{RandomBytes, RandomRefused};
pub use context::{DEFAULT_MAX_SIZE, WasiRandomCtx};
pub use deterministic::Deterministic;
pub use generator::{Generator, HostRng, seeded_rng, thread_rng};
pub use known::{KnownGenerator, known_draws_are_of_the_stream};
