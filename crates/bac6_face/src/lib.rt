#![tactic(auto, unfolding(parse_cursor::specs::Internal::Cursors::from))]
// One face of a figure: its row.
mod face;

pub use face::face_tail;
