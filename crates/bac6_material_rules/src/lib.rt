#![tactic(auto)]
// Rule 12 of a figure, over a table of rows (document 01, "Refusal numbers").
mod material;

pub use material::material_fault;
