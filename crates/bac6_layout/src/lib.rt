#![tactic(auto)]
// A figure's lists laid from the table of rows into the lent table, each in its own part.
mod ends;
mod figure;

pub use ends::{Ends, row_ends};
pub use figure::lay;
