#![tactic(auto)]
// Rows of a table: set down from an index on.
mod rows;

pub use rows::{put, store};
