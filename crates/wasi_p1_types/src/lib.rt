//! The types of preview 0 and preview 1, and the conversions between them. A type that both have
//! alike is one type with two names.
#![tactic(auto)]

mod both;
mod convert;
mod errno;
pub mod p0;
pub mod p1;
#[cfg(test)]
mod tests;
