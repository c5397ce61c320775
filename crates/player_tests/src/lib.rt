#![tactic(auto)]
// What numbers of a table may stand for: a float, a total of frames, a range, a key's frame.
mod frames;
mod number;
mod range;

pub use frames::follows;
pub use number::{is_asked, is_float};
pub use range::is_range;
