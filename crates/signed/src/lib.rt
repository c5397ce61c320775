#![tactic(auto)]
// Signed numbers of 64 bits: how far one is from zero, and what the tests on one say.
mod number;

pub use number::magnitude;
