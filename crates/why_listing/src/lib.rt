#![tactic(auto)]
// Why faces are shown or hidden, as text.
mod reasons;

pub use reasons::{append_why, list_why};
