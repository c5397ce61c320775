#![tactic(auto)]
// Where a bone's name stands in its text.
mod names;

pub use names::{NameSpan, figure_name, movement_name};
