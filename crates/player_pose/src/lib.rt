#![tactic(auto)]
// The pose that a movement's channels keep where they are left out.
mod pose;

pub use pose::standing;
