#![tactic(auto, unfolding(parse_cursor::specs::Internal::Cursors::from))]
// A number, and where an item of a list begins.
mod items;
mod numerals;

pub use items::next_item;
pub use numerals::{Form, number};
