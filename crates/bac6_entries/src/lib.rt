#![tactic(auto, unfolding(parse_cursor::specs::Internal::Cursors::from))]
// The vertex entries of a bone, claimed as they are read.
mod entry;

pub use entry::entries;
