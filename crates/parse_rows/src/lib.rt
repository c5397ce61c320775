#![tactic(auto, unfolding(parse_cursor::specs::Internal::Cursors::from))]
// Numbers and a row of them, written to a lent table.
mod cells;

pub use cells::{numbers, row, row_tail};
