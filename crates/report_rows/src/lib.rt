#![tactic(auto)]
// Lines of a word and numbers.
mod row;

pub use row::append_row;
