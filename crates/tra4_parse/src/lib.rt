#![tactic(auto, unfolding(parse_cursor::specs::Internal::Cursors::from))]
// Reads the shape of a movement's text into tables.
mod shape;

pub use shape::{Shape, parse};
