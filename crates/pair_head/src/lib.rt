#![tactic(auto)]
// The head of a pair on standard input: eight digits giving the figure's length, and a line feed.
mod division;

pub use division::{divide, parse_head};
