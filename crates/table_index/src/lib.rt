#![tactic(auto)]
// Indices of a table.
mod index;

pub use index::{advance, rows_end};
