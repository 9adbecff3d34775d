//! A chain of bounded links that carries one input through stages to a reader.
#![tactic(auto)]

mod chain;
mod chain_run;
mod declarations;
mod feed;
mod kind;
mod laws;
mod line;
mod link;
mod parse;
mod pipeline;
mod program;
mod reading;
mod run;
mod stage;
#[cfg(test)]
mod tests;

pub use chain_run::{Pipelines, run_chain};
pub use kind::StageKind;
pub use laws::{taking_nothing_has_a_cause, valid_runs_complete, valid_runs_conserve};
pub use line::Line;
pub use link::Link;
pub use parse::{ScriptError, parse_script};
pub use pipeline::Pipeline;
pub use program::run_pipeline;
pub use run::run_steps;
pub use stage::Turn;
pub use wasi_commands::ProgramError as PipelineError;
