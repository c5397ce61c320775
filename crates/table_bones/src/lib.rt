#![tactic(auto)]
// A bone's row in a figure's table, and in a movement's.
mod bones;

pub use bones::{figure_bone, movement_bone};
