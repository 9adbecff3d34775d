//! Words on flags that several crates' definitions cite, and their laws. No other code.
#![tactic(auto)]

pub mod laws;
