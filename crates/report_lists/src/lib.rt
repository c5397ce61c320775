#![tactic(auto)]
// Lists of a table, a line a row.
mod list;

pub use list::{Progress, append_list, first_line, shown};
