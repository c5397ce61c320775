#![tactic(auto)]
// Loads a movement with a figure that already stands in a table.
mod moving;

pub use moving::load_movement;
