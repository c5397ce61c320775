#![tactic(auto)]
// Rule 11: an entry names a vertex that no earlier entry has named.
mod owner;

pub use owner::claim;
