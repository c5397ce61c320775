#![tactic(auto)]
// Rule 10: the bones of a figure as a tree, each with its parent.
mod bone;

pub use bone::place_bones;
