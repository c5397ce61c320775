#![tactic(auto)]
// Rule 15 of a movement: the keys of each channel.
mod key;

pub use key::keys_fault;
