#![tactic(auto)]
// Whether a face is shown at a frame.
mod showing;

pub use showing::shown;
