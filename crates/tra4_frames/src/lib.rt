#![tactic(auto)]
// Rules 15 and 16 of a movement: the keys of a channel and the pattern lines.
mod channel;
mod pattern;

pub use channel::channel_fault;
pub use pattern::patterns_fault;
