#![tactic(auto)]
// A part of a text, and whether two lists of bytes are the same.
mod slice;

pub use slice::{part, same};
