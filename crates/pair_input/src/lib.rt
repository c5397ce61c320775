#![tactic(auto)]
// An input that may be longer than the buffer lent for it.
mod reading;

pub use reading::{Input, read_input};
