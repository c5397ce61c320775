#![tactic(auto)]
// Rule 13 of a figure, over a table of rows (document 01, "Refusal numbers").
mod face;

pub use face::face_fault;
