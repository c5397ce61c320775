#![tactic(auto)]
// Samples as text.
mod samples;

pub use samples::list_samples;
