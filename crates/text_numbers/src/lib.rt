#![tactic(auto)]
// INT and FLOAT of a plain word, as exact whole numbers (document 01, "Words", and document 02, request vii).
mod number;

pub use number::{NumberError, float, int};
