#![tactic(auto)]
// Rules 8 and 14 to 16 of a movement, over tables of rows (document 01, "Refusal numbers").
mod count;
mod order;

pub use order::first_fault;
