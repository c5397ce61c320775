#![tactic(auto)]
// Loads a figure and a movement as a pair.
mod pair;

pub use pair::{PairAnswer, load};
