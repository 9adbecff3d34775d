//! Preview 1 as a trait, a guest's memory, and a snapshot whose answers are given beforehand.
#![tactic(auto)]

mod call;
mod mem_snapshot;
mod memory;
mod reply;
mod snapshot;

pub use call::Call;
pub use mem_snapshot::MemSnapshot1;
pub use memory::GuestMemory;
pub use reply::Reply;
pub use snapshot::Snapshot1;
pub use wasi_p1_types::{p0, p1};

#[cfg(test)]
mod tests;
