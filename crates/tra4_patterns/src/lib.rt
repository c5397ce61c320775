#![tactic(auto, unfolding(parse_cursor::specs::Internal::Cursors::from))]
// The pattern lines of a movement.
mod pattern;

pub use pattern::patterns;
