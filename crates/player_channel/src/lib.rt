#![tactic(auto)]
// A channel's value at a frame, by its keys.
mod channel;
mod fraction;
mod halving;
mod line;
mod pass;

pub use channel::{Sample, channel_sample};
