#![tactic(auto)]
// Rules 8 to 13 of a figure, over tables of rows (document 01, "Refusal numbers").
mod count;
mod order;

pub use order::{counts_fault, later_fault};
