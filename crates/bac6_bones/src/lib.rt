#![tactic(auto, unfolding(parse_cursor::specs::Internal::Cursors::from))]
// Reads the bones of a figure: their rows, and the claims of their vertex entries.
mod list;

pub use list::{Boned, bones};
