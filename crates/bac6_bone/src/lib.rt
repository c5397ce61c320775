#![tactic(auto, unfolding(parse_cursor::specs::Internal::Cursors::from))]
// One bone of a figure: its row, and the claims of its vertex entries.
mod bone;

pub use bone::bone_tail;
