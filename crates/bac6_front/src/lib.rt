#![tactic(auto, unfolding(parse_cursor::specs::Internal::Cursors::from))]
// Reads the front of a figure's text, from its head to its normals, into a table of rows.
mod lists;
mod opening;

pub use opening::{Front, read_front};
