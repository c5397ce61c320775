#![tactic(auto, unfolding(crate::specs::Internal::Cursors::from))]
// A cursor that goes from reader to reader: brackets and keywords.
mod cursor;

pub use cursor::{Cursor, Parsed, closing, keyword, opened, opening};
