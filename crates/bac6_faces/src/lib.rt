#![tactic(auto, unfolding(parse_cursor::specs::Internal::Cursors::from))]
// Reads the faces and groups of a figure's text into tables of rows.
mod ending;
mod group;
mod list;

pub use ending::polygons;
pub use group::Polygons;
