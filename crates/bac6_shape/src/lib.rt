#![tactic(auto, unfolding(parse_cursor::specs::Internal::Cursors::from))]
// Reads the shape of a figure's text into a table of rows.
mod bones;
mod ending;
mod shape;

pub use shape::{Parsed, parse};
