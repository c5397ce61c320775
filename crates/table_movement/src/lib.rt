#![tactic(auto)]
// Where each list stands in a movement's table.
mod sections;

pub use sections::{MovementSections, holds_movement, movement_in};
