#![tactic(auto, unfolding(parse_cursor::specs::Internal::Cursors::from))]
// Which of some keywords a token is.
mod words;

pub use words::{one_of, word_index};
