#![tactic(auto, unfolding(parse_cursor::specs::Internal::Cursors::from))]
// Chunks that may be left out.
mod optionals;

pub use optionals::{optional, trailing};
