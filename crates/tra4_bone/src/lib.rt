#![tactic(auto, unfolding(parse_cursor::specs::Internal::Cursors::from))]
// One bone of a movement: its row, and its keys laid by channel number.
mod bone;
mod laying;

pub use bone::bone_tail;
