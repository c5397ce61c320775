#![tactic(auto)]
// Tests of a token by its kind.
mod kinds;

pub use kinds::{is_closing, is_ending, is_opening, is_plain, is_quoted};
