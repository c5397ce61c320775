#![tactic(auto)]
// Numbers that refer to a row of a list, or to none.
mod number;

pub use number::{is_index, is_none, is_row};
