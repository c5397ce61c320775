#![tactic(auto, unfolding(parse_cursor::specs::Internal::Cursors::from))]
// Lists of rows of numbers, written to a lent table.
mod lists;

pub use lists::{rows, some_rows};
