#![tactic(auto)]
// Corners as text.
mod corners;

pub use corners::{append_corner, list_corners};
