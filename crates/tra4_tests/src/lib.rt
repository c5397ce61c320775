#![tactic(auto)]
// What numbers of a movement may stand for: a frame, and a pattern line's frame and group.
mod frame;
mod line;

pub use frame::is_frame;
pub use line::pattern_fits;
