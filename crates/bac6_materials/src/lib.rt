#![tactic(auto, unfolding(parse_cursor::specs::Internal::Cursors::from))]
// Reads the materials of a figure's text into a table of rows.
mod material;

pub use material::materials;
