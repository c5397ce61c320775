#![tactic(auto)]
// What numbers of a table may stand for: a face's size and corners.
mod face_corners;
mod figure;

pub use face_corners::{corners_fine, size_fine};
pub use figure::Figure;
