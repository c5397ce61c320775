#![tactic(auto)]
// The rules 8 to 13 of a figure, over the table of its rows.
mod check;

pub use check::first_fault;
