#![tactic(auto)]
// Runs of bytes (document 01, "Words").
mod run;

pub use run::{Run, run_end};
