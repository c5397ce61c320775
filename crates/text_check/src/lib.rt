#![tactic(auto)]
// The refusals 1 to 4 of a whole text (document 01, "Refusal numbers").
mod check;

pub use check::{Format, check_text};
