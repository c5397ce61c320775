#![tactic(auto)]
// Pattern lines: which one decides whether a group is shown at a frame.
mod deciding;
mod line;

pub use deciding::{Line, deciding_line};
