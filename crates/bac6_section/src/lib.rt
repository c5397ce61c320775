#![tactic(auto, unfolding(parse_cursor::specs::Internal::Cursors::from))]
// Lists of rows of a figure, each after the one before it in one table.
mod rows;

pub use rows::{Listed, section, with_end};
