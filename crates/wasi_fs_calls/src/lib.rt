//! The calls on descriptors as data, and the rule that says what each answers and leaves of its
//! tree.
#![tactic(auto)]

mod answers;
mod call;
mod laws;
mod rule;
#[cfg(test)]
mod tests;

pub use answers::{DescriptorAnswer, DescriptorTold};
pub use call::{DescriptorCall, PairCall};
pub use laws::{calls_change_nodes_alone, calls_keep_descriptors, refused_calls_change_nothing};
pub use rule::{answer, answer_pair};
