//! A guest's resources by number: entries of any kind, each with a parent or none.
#![tactic(auto)]

mod error;
mod kinds;
mod rows;
mod table;
#[cfg(test)]
mod tests;

pub use error::TableError;
pub use kinds::Kinded;
pub use table::ResourceTable;
