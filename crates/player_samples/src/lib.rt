#![tactic(auto)]
// A channel's value at a frame, in a movement's table.
mod sampling;

pub use sampling::sample;
