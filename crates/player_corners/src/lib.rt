#![tactic(auto)]
// A face's corner.
mod corners;
mod face;
mod point;

pub use corners::{FaceCorner, corner};
pub use point::Uv;
