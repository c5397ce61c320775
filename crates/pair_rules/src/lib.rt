#![tactic(auto)]
// Whether a figure and a movement in two tables are a pair.
mod fault;
mod names;

pub use fault::pair_fault;
pub use names::has_names;
