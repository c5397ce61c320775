#![tactic(auto, unfolding(parse_cursor::specs::Internal::Cursors::from))]
// Chunks in a free order, each at most once.
mod chunk;

pub use chunk::next_chunk;
