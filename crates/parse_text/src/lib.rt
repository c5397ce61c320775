#![tactic(auto, unfolding(parse_cursor::specs::Internal::Cursors::from))]
// What stands first in a text and last, and what reading a text answers.
mod heading;

pub use heading::{head, text_end};
