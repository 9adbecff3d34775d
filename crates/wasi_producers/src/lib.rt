//! Producers and consumers of WASI 0.3: a guest's side of a stream of bytes or of items, moved on by
//! one poll at a time.
#![tactic(auto)]

mod input;
mod iterator;
mod laws;
mod output;
mod results;
#[cfg(test)]
mod tests;

pub use input::InputStreamProducer;
pub use iterator::FallibleIteratorProducer;
pub use laws::{consumers_end_once, producers_end_once, producers_hand_out_what_was_read};
pub use output::{OutputStreamConsumer, Want, Wrote};
pub use results::{CliErrorCode, Consumed, Produced, StreamResult};
